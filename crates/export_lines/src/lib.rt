// Exports the C functions of `c_lines`.
//
// Each calls the function of its name there and promises the same, word for word. Assumes nothing.
#![tactic(auto)]

ghost use Rattle.std.specs.Prelude.{◌≡◌};
ghost use Rattle.read_kind.specs.Kind.{kind, kind_number, comment_of, directive_of};
ghost use Rattle.c_lines.specs.Line.{c_next_line, c_comment, c_directive};

use c_lines::{Gff3CommentText, Gff3DirectiveText, Gff3Line};

#[unsafe(no_mangle)]
pub extern "C" fn gff3_next_line(text: &[u8], at: usize) -> Gff3Line
    ensures { result ≡ c_next_line text.now at }
{
    c_lines::gff3_next_line(text, at)
}

#[unsafe(no_mangle)]
pub extern "C" fn gff3_kind(line: &[u8]) -> u32
    ensures { result ≡ kind_number (kind line.now) }
{
    c_lines::gff3_kind(line)
}

#[unsafe(no_mangle)]
pub extern "C" fn gff3_comment(line: &[u8]) -> Gff3CommentText
    ensures { result ≡ c_comment (comment_of line.now) }
{
    c_lines::gff3_comment(line)
}

#[unsafe(no_mangle)]
pub extern "C" fn gff3_directive(line: &[u8]) -> Gff3DirectiveText
    ensures { result ≡ c_directive (directive_of line.now) }
{
    c_lines::gff3_directive(line)
}
