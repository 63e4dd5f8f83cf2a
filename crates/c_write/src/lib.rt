// Gives C the writers of a record, a directive and a comment.
//
// Proved: each answer, and the whole buffer, are the library's definitions of them. Every function takes any bytes and numbers. Assumes
// nothing.
#![tactic(auto)]

ghost use Rattle.std.specs.Prelude.{◌≡◌};
ghost use Rattle.write_measure.specs.Record.{record_reasons, record_line};
ghost use Rattle.write_comment.specs.Comment.{comment_reasons, comment_line};
ghost use Rattle.write_directive.specs.Directive.{directive_reasons, directive_line};
ghost use Rattle.c_answers.specs.Answers.{CWrote};
ghost use Rattle.c_write.specs.Value.{part_of_c, version_of_c, value_of_c};

use c_answers::Gff3Written;
use read_version::GffVersion;
use write_directive::Value;

// The value of a directive. `kind` is 1 for a text, 2 for a version, 3 for a region, 4 for a build; any other number says that there is
// none. A version has the fields from `major` to `patch`, where a part is there if its `has` is not 0, and a region has start and end.
#[repr(C)]
#[derive(Clone, Copy)]
pub struct Gff3DirectiveValue {
    pub kind: u32,
    pub major: u32,
    pub has_minor: u32,
    pub minor: u32,
    pub has_patch: u32,
    pub patch: u32,
    pub start: u64,
    pub end: u64,
}

fn part_in(has: u32, n: u32) -> Option<u32>
    ensures { result ≡ part_of_c has n }
{
    if has == 0 { None } else { Some(n) }
}

fn version_in(value: Gff3DirectiveValue) -> GffVersion
    ensures { result ≡ version_of_c value }
{
    GffVersion {
        major: value.major,
        minor: part_in(value.has_minor, value.minor),
        patch: part_in(value.has_patch, value.patch),
    }
}

fn value_in(value: Gff3DirectiveValue) -> Value
    ensures { result ≡ value_of_c value }
{
    let kind = value.kind;
    match kind {
        1 => Value::Text,
        2 => Value::Version(version_in(value)),
        3 => Value::Region(value.start, value.end),
        4 => Value::Build,
        _ => Value::None,
    }
}

// The line of a sheet and the numbers beside it. Refusals 24, 23, 2, 17, 3, 4, 18, 22.
#[unsafe(no_mangle)]
pub extern "C" fn gff3_write_record(
    sheet: &[u8],
    start: u64,
    end: u64,
    strand: u32,
    phase: u32,
    out: &mut [u8],
) -> Gff3Written
    ensures { CWrote (record_reasons sheet.now start end strand phase)
        (record_line sheet.now start end strand phase) out.old out.new result }
{
    c_answers::written_of(write_record::write_record(sheet, start, end, strand, phase, out))
}

// `#` and the text. Refusals 24, 20, 22.
#[unsafe(no_mangle)]
pub extern "C" fn gff3_write_comment(text: &[u8], out: &mut [u8]) -> Gff3Written
    ensures { CWrote (comment_reasons text.now) (comment_line text.now)
        out.old out.new result }
{
    c_answers::written_of(write_comment::write_comment(text, out))
}

// `##`, the key, and a space and the value where there is one. `first` is the text, the region's name or the build's source, and `second`
// the build's name; one that the value does not use is not looked at. Refusals 24, 21, 19, 20, 9, 2, 22.
#[unsafe(no_mangle)]
pub extern "C" fn gff3_write_directive(
    key: &[u8],
    value: Gff3DirectiveValue,
    first: &[u8],
    second: &[u8],
    out: &mut [u8],
) -> Gff3Written
    ensures { CWrote (directive_reasons key.now (value_of_c value) first.now second.now)
        (directive_line key.now (value_of_c value) first.now second.now)
        out.old out.new result }
{
    let written = write_directive::write_directive(key, value_in(value), first, second, out);
    c_answers::written_of(written)
}
