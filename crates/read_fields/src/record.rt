// A record read at once: bounds, positions, score, strand and phase by one index.
ghost use Rattle.std.specs.Prelude.{◌≡◌};
ghost use Rattle.read_columns.specs.Columns.{ends};
ghost use Rattle.read_fields.specs.Fields.{record_of};
ghost use Rattle.read_fields.specs.Inner.ByBounds.{fields_in};

use base_refusals::Refusal;
use base_scan::Place;
use read_columns::{Bounds, Column};
use read_tokens::{Phase, Strand};

#[derive(Clone, Copy)]
pub struct Record {
    pub bounds: Bounds,
    pub start: u64,
    pub end: u64,
    // Where the token stands in the line; none where the column is the exact byte `.`.
    pub score: Option<Place>,
    pub strand: Strand,
    pub phase: Phase,
}

// Columns 4 to 8 of a record whose bounds these are. Refusals, in order: 2 (start, then end), 17, 3, 4.
fn fields_in(line: &[u8], bounds: Bounds) -> Result<Record, Refusal>
    requires { bounds ≡ ends line.now }
    ensures { result ≡ fields_in line.now }
{
    let start_text = read_columns::text_in(line, bounds, Column::Start);
    let start = read_tokens::position_of(start_text)?;
    let end_text = read_columns::text_in(line, bounds, Column::End);
    let end = read_tokens::position_of(end_text)?;
    let score_place = read_columns::place_in(Column::Score, bounds, line.len());
    let score = super::score::score_of(line, score_place)?;
    let strand_text = read_columns::text_in(line, bounds, Column::Strand);
    let strand = read_tokens::strand_of(strand_text)?;
    let phase_text = read_columns::text_in(line, bounds, Column::Phase);
    let phase = read_tokens::phase_of(phase_text)?;
    Ok(Record {
        bounds,
        start,
        end,
        score,
        strand,
        phase,
    })
}

// The bounds of a line and its columns 4 to 8. Refusals, in order: 1, 2 (start, then end), 17, 3, 4, as the readers of each column have
// them.
#[tactic(auto, using(crate::proofs::RecordLaws::records_told))]
pub fn record_of(line: &[u8]) -> Result<Record, Refusal>
    ensures { result ≡ record_of line.now }
{
    fields_in(line, read_columns::index(line)?)
}
