// Exports the C functions of `c_write`.
//
// Each calls the function of its name there and promises the same, word for word. Assumes nothing.
#![tactic(auto)]

ghost use Rattle.write_measure.specs.Record.{record_reasons, record_line};
ghost use Rattle.write_comment.specs.Comment.{comment_reasons, comment_line};
ghost use Rattle.write_directive.specs.Directive.{directive_reasons, directive_line};
ghost use Rattle.c_answers.specs.Answers.{CWrote};
ghost use Rattle.c_write.specs.Value.{value_of_c};

use c_answers::Gff3Written;
use c_write::Gff3DirectiveValue;

#[unsafe(no_mangle)]
pub extern "C" fn gff3_write_record(
    sheet: &[u8],
    start: u64,
    end: u64,
    strand: u32,
    phase: u32,
    out: &mut [u8],
) -> Gff3Written
    ensures { CWrote (record_reasons sheet.now start end strand phase)
        (record_line sheet.now start end strand phase) out.old out.new result }
{
    c_write::gff3_write_record(sheet, start, end, strand, phase, out)
}

#[unsafe(no_mangle)]
pub extern "C" fn gff3_write_comment(text: &[u8], out: &mut [u8]) -> Gff3Written
    ensures { CWrote (comment_reasons text.now) (comment_line text.now)
        out.old out.new result }
{
    c_write::gff3_write_comment(text, out)
}

#[unsafe(no_mangle)]
pub extern "C" fn gff3_write_directive(
    key: &[u8],
    value: Gff3DirectiveValue,
    first: &[u8],
    second: &[u8],
    out: &mut [u8],
) -> Gff3Written
    ensures { CWrote (directive_reasons key.now (value_of_c value) first.now second.now)
        (directive_line key.now (value_of_c value) first.now second.now)
        out.old out.new result }
{
    c_write::gff3_write_directive(key, value, first, second, out)
}
