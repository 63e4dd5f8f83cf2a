// Defines what several of the C functions take and answer: bounds, a number or a refusal, a writer's answer.
//
// These are turned into the library's own, or out of them.
//
// Proved: each answer is that of one definition for each type, which gives each case its number and value (RULES 10). Assumes nothing.
#![tactic(auto)]

ghost use Rattle.std.specs.Prelude.{◌≡◌};
ghost use Rattle.c_answers.specs.Answers.{bounds_of_c, c_bounds, no_bounds, c_position, c_written};

use base_buffer::WriteError;
use base_refusals::Refusal;
use read_columns::Bounds;

#[repr(C)]
#[derive(Clone, Copy)]
pub struct Gff3Bounds {
    pub reference_sequence_name_end: usize,
    pub source_end: usize,
    pub type_end: usize,
    pub start_end: usize,
    pub end_end: usize,
    pub score_end: usize,
    pub strand_end: usize,
    pub phase_end: usize,
}

#[repr(C)]
#[derive(Clone, Copy)]
pub struct Gff3Number {
    pub refused: u64,
    pub value: u64,
}

#[repr(C)]
#[derive(Clone, Copy)]
pub struct Gff3Written {
    pub refused: u64,
    pub length: usize,
}

// The library's bounds of C's.
pub fn bounds_in(bounds: Gff3Bounds) -> Bounds
    ensures { result ≡ bounds_of_c bounds }
{
    Bounds {
        reference_sequence_name_end: bounds.reference_sequence_name_end,
        source_end: bounds.source_end,
        type_end: bounds.type_end,
        start_end: bounds.start_end,
        end_end: bounds.end_end,
        score_end: bounds.score_end,
        strand_end: bounds.strand_end,
        phase_end: bounds.phase_end,
    }
}

// C's bounds of the library's.
pub fn bounds_out(b: Bounds) -> Gff3Bounds
    ensures { result ≡ c_bounds b }
{
    Gff3Bounds {
        reference_sequence_name_end: b.reference_sequence_name_end,
        source_end: b.source_end,
        type_end: b.type_end,
        start_end: b.start_end,
        end_end: b.end_end,
        score_end: b.score_end,
        strand_end: b.strand_end,
        phase_end: b.phase_end,
    }
}

// What C gets in their place where there are none.
pub fn no_bounds() -> Gff3Bounds
    ensures { result ≡ no_bounds }
{
    Gff3Bounds {
        reference_sequence_name_end: 0,
        source_end: 0,
        type_end: 0,
        start_end: 0,
        end_end: 0,
        score_end: 0,
        strand_end: 0,
        phase_end: 0,
    }
}

pub fn position_of(read: Result<u64, Refusal>) -> Gff3Number
    ensures { result ≡ c_position read }
{
    match read {
        Ok(n) => Gff3Number {
            refused: 0,
            value: n,
        },
        Err(r) => Gff3Number {
            refused: r.number() as u64,
            value: 0,
        },
    }
}

pub fn written_of(written: Result<usize, WriteError>) -> Gff3Written
    ensures { result ≡ c_written written }
{
    match written {
        Ok(length) => Gff3Written { refused: 0, length },
        Err(WriteError::Refused(refusal)) => Gff3Written {
            refused: refusal.number() as u64,
            length: 0,
        },
        Err(WriteError::NoRoom(length)) => Gff3Written {
            refused: 22,
            length,
        },
    }
}
