// Gives C a line judged, and a line unfolded into a sheet and numbers.
//
// Proved: each struct, and the whole buffer, are the library's definitions of them, by one definition for each enum, which gives each
// case its numbers (RULES 10, 16). Every function takes any bytes. Assumes nothing.
#![tactic(auto)]

ghost use Rattle.std.specs.Prelude.{◌≡◌};
ghost use Rattle.read_judge.specs.Judge.{judged};
ghost use Rattle.c_unfold.specs.Sheet.{c_refused, c_numbers, c_judged, c_unfolded, CUnfolds};

use base_buffer::WriteError;
use read_judge::Numbers;

#[repr(C)]
#[derive(Clone, Copy)]
pub struct Gff3Unfolded {
    pub refused: u64,
    pub length: usize,
    pub start: u64,
    pub end: u64,
    pub strand: u32,
    pub phase: u32,
}

fn refused_of(error: WriteError) -> Gff3Unfolded
    ensures { result ≡ c_refused error }
{
    let answer = c_answers::written_of(Err(error));
    Gff3Unfolded {
        refused: answer.refused,
        length: answer.length,
        start: 0,
        end: 0,
        strand: 0,
        phase: 0,
    }
}

fn numbers_of(numbers: Numbers, length: usize) -> Gff3Unfolded
    ensures { result ≡ c_numbers numbers length }
{
    let strand = numbers.strand;
    let phase = numbers.phase;
    Gff3Unfolded {
        refused: 0,
        length,
        start: numbers.start,
        end: numbers.end,
        strand: read_tokens::strand_number(strand),
        phase: read_tokens::phase_number(phase),
    }
}

fn unfolded_of(unfolded: Result<(Numbers, usize), WriteError>) -> Gff3Unfolded
    ensures { result ≡ c_unfolded unfolded }
{
    match unfolded {
        Ok((numbers, length)) => numbers_of(numbers, length),
        Err(error) => refused_of(error),
    }
}

// The numbers of a line and the length of its sheet, without a buffer. Refusals 24, 1, 2, 17, 3, 4, 5.
#[unsafe(no_mangle)]
pub extern "C" fn gff3_judge(line: &[u8]) -> Gff3Unfolded
    ensures { result ≡ c_judged (judged line.now) }
{
    match read_judge::judge(line) {
        Ok((numbers, need)) => numbers_of(numbers, need),
        Err(refusal) => refused_of(WriteError::Refused(refusal)),
    }
}

// The sheet of a line in a lent buffer, and the numbers beside it. Refusals 24, 1, 2, 17, 3, 4, 5, 22.
#[unsafe(no_mangle)]
pub extern "C" fn gff3_unfold(line: &[u8], sheet: &mut [u8]) -> Gff3Unfolded
    ensures { CUnfolds line.now sheet.old sheet.new result }
{
    unfolded_of(read_record::unfold(line, sheet))
}
