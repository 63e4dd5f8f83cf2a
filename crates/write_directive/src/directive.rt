// A directive: `##`, the key, and a space and the value where there is one.
ghost use Rattle.std.specs.Prelude.{◌≡◌};
ghost use Rattle.base_buffer.specs.Answer.{Wrote, refusal_of, unless};
ghost use Rattle.write_directive.specs.Directive.{tail, directive_reasons, directive_line};

use super::judge::Faults;
use base_buffer::WriteError;
use base_refusals::Refusal;
use base_sink::{Count, Page, Sink};
use read_version::GffVersion;

// The value, beside the two texts that it may use, `first` and `second`.
#[derive(Clone, Copy)]
pub enum Value {
    None,
    // `first`, as it is.
    Text,
    // Under the key `gff-version`.
    Version(GffVersion),
    // Under the key `sequence-region`, with the name in `first`: start and end.
    Region(u64, u64),
    // Under the key `genome-build`, with the source in `first` and the name in `second`.
    Build,
}

fn refusal(key: &[u8], value: Value, first: &[u8], second: &[u8]) -> Result<(), Refusal>
    ensures { result ≡ unless (refusal_of (directive_reasons key.now value first.now second.now)) tt }
{
    match value {
        Value::None => super::judge::refusal(key, Faults::default()),
        Value::Text => {
            let faults = Faults {
                long: write_texts::is_long(first),
                unfit: write_texts::breaks(first),
                ..Faults::default()
            };
            super::judge::refusal(key, faults)
        }
        Value::Version(version) => super::gff_version::version_refusal(key, version),
        Value::Region(start, end) => {
            super::sequence_region::region_refusal(key, first, start, end)
        }
        Value::Build => super::genome_build::build_refusal(key, first, second),
    }
}

// The value and the space before it.
fn put_tail<S: Sink>(value: Value, first: &[u8], second: &[u8], sink: &mut S)
    ensures { S.took (tail value first.now second.now) sink.old sink.new }
{
    match value {
        Value::None => {}
        Value::Text => super::pieces::put_word(first, sink),
        Value::Version(version) => super::gff_version::put_version(version, sink),
        Value::Region(start, end) => super::sequence_region::put_region(first, start, end, sink),
        Value::Build => super::genome_build::put_build(first, second, sink),
    }
}

fn put_directive<S: Sink>(key: &[u8], value: Value, first: &[u8], second: &[u8], sink: &mut S)
    ensures { S.took (directive_line key.now value first.now second.now) sink.old sink.new }
{
    sink.byte(b'#');
    sink.byte(b'#');
    sink.text(key);
    put_tail(value, first, second, sink);
}

// Writes a directive at the start of a buffer. A text that the value does not use is not looked at. Refusals, in order: 24, the key or a
// text that is used is over 1,048,576 bytes; 21, a typed value under another key than its own; 19, the key holds ASCII white space; 20,
// a string holds a carriage return or a line feed, or a name or source is empty or holds ASCII white space; 9, a patch without a minor;
// 2, a start or an end of zero; 22, with the length needed, where the line does not fit. An empty key, and an empty string, are written.
pub fn write_directive(
    key: &[u8],
    value: Value,
    first: &[u8],
    second: &[u8],
    out: &mut [u8],
) -> Result<usize, WriteError>
    ensures { Wrote (directive_reasons key.now value first.now second.now)
        (directive_line key.now value first.now second.now) out.old out.new result }
{
    refusal(key, value, first, second)?;
    let mut count = Count { bytes: 0 };
    put_directive(key, value, first, second, &mut count);
    let need = count.bytes;
    if out.len() < need {
        return Err(WriteError::NoRoom(need));
    }
    put_directive(key, value, first, second, &mut Page { out, at: 0 });
    Ok(need)
}
