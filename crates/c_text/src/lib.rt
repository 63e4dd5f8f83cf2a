// Gives C columns 1 to 3 of a record, decoded.
//
// It stands alone, so that the check of bounds is compiled into the one reader of the three.
//
// Proved: the struct, and the whole buffer, are the library's definitions of them, by one definition that gives each case its number
// (RULES 10, 16). The function takes any bytes and numbers. Assumes nothing.
#![tactic(auto)]

ghost use Rattle.base_buffer.specs.Answer.{Wrote};
ghost use Rattle.c_answers.specs.Answers.{bounds_of_c, CWrote};
ghost use Rattle.c_text.specs.Text.{text_column_of_c, c_text_reasons, c_text};

use base_buffer::WriteError;
use base_refusals::Refusal;
use c_answers::{Gff3Bounds, Gff3Written};
use read_columns::Bounds;

// Columns 1 to 3 by their numbers, decoded into a lent buffer.
fn text(line: &[u8], bounds: Bounds, column: u32, out: &mut [u8]) -> Result<usize, WriteError>
    ensures { Wrote (c_text_reasons (text_column_of_c column) line.now bounds)
        (c_text (text_column_of_c column) line.now) out.old out.new result }
{
    match column {
        1 => read_fields::reference_sequence_name(line, bounds, out),
        2 => read_fields::source(line, bounds, out),
        3 => read_fields::ty(line, bounds, out),
        _ => Err(WriteError::Refused(Refusal::Columns)),
    }
}

// Columns 1 to 3, decoded. Refusals 1, also for a number that is none of the three, and 22.
#[unsafe(no_mangle)]
pub extern "C" fn gff3_text(
    line: &[u8],
    bounds: Gff3Bounds,
    column: u32,
    out: &mut [u8],
) -> Gff3Written
    ensures { CWrote (c_text_reasons (text_column_of_c column) line.now (bounds_of_c bounds))
        (c_text (text_column_of_c column) line.now) out.old out.new result }
{
    c_answers::written_of(text(line, c_answers::bounds_in(bounds), column, out))
}
