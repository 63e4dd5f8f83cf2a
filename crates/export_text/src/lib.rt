// Exports the C functions of `c_text`.
//
// Each calls the function of its name there and promises the same, word for word. Assumes nothing.
#![tactic(auto)]

ghost use Rattle.c_answers.specs.Answers.{bounds_of_c, CWrote};
ghost use Rattle.c_text.specs.Text.{text_column_of_c, c_text_reasons, c_text};

use c_answers::{Gff3Bounds, Gff3Written};

#[unsafe(no_mangle)]
pub extern "C" fn gff3_text(
    line: &[u8],
    bounds: Gff3Bounds,
    column: u32,
    out: &mut [u8],
) -> Gff3Written
    ensures { CWrote (c_text_reasons (text_column_of_c column) line.now (bounds_of_c bounds))
        (c_text (text_column_of_c column) line.now) out.old out.new result }
{
    c_text::gff3_text(line, bounds, column, out)
}
