// Gives C a record read at once: its bounds, positions, score, strand and phase.
//
// It stands alone, so that the index and the readers are compiled into it and each byte of columns 4 to 8 is read once.
//
// Proved: the struct is the library's definition of the answer, by one definition that gives each case its numbers and places (RULES 10,
// 16). The function takes any bytes. Assumes nothing.
#![tactic(auto)]

ghost use Rattle.std.specs.Prelude.{◌≡◌, Ok, Err};
ghost use Rattle.read_fields.specs.Fields.{record_of};
ghost use Rattle.c_record.specs.Record.{score_missing, score_start, score_end, c_record};

use base_refusals::Refusal;
use base_scan::Place;
use c_answers::Gff3Bounds;
use read_fields::Record;

#[repr(C)]
#[derive(Clone, Copy)]
pub struct Gff3RecordFields {
    pub refused: u64,
    pub bounds: Gff3Bounds,
    pub start: u64,
    pub end: u64,
    pub score_missing: u64,
    pub score_start: usize,
    pub score_end: usize,
    pub strand: u32,
    pub phase: u32,
}

// A score as C has it.
#[derive(Clone, Copy)]
struct ScorePlace {
    missing: u64,
    start: usize,
    end: usize,
}

fn score_place(score: Option<Place>) -> ScorePlace
    ensures { (result.missing ≡ score_missing score) × (result.start ≡ score_start score) × (result.end ≡ score_end score) }
{
    match score {
        None => ScorePlace {
            missing: 1,
            start: 0,
            end: 0,
        },
        Some(place) => ScorePlace {
            missing: 0,
            start: place.start,
            end: place.end,
        },
    }
}

fn fields_of(read: Record) -> Gff3RecordFields
    ensures { result ≡ c_record (Ok read) }
{
    let bounds = read.bounds;
    let score = read.score;
    let place = score_place(score);
    let strand = read.strand;
    let phase = read.phase;
    Gff3RecordFields {
        refused: 0,
        bounds: c_answers::bounds_out(bounds),
        start: read.start,
        end: read.end,
        score_missing: place.missing,
        score_start: place.start,
        score_end: place.end,
        strand: read_tokens::strand_number(strand),
        phase: read_tokens::phase_number(phase),
    }
}

fn refused_of(r: Refusal) -> Gff3RecordFields
    ensures { result ≡ c_record (Err r) }
{
    Gff3RecordFields {
        refused: r.number() as u64,
        bounds: c_answers::no_bounds(),
        start: 0,
        end: 0,
        score_missing: 0,
        score_start: 0,
        score_end: 0,
        strand: 0,
        phase: 0,
    }
}

// The bounds of a line and its columns 4 to 8. Refusals 1, 2, 17, 3, 4, in this order.
#[unsafe(no_mangle)]
pub extern "C" fn gff3_record(line: &[u8]) -> Gff3RecordFields
    ensures { result ≡ c_record (record_of line.now) }
{
    match read_fields::record_of(line) {
        Ok(read) => fields_of(read),
        Err(r) => refused_of(r),
    }
}
