// Encodes a text by one of the three sets, each byte of the set as `%` and two capital hex digits.
// In the Rust: percent-encoding.
//
// Every function takes any bytes and numbers.
//
// Proved: what is encoded is the definition of `percent_coding` over the set, byte by byte; one proof serves the three sets. Assumes
// nothing.
#![tactic(auto)]

mod plain;
mod put;

ghost use Rattle.std.specs.Prelude.{◌≡◌, ◌-◌, ◌*◌, ◌^◌, ◌<◌, ◌≤◌, min, length};
ghost use Rattle.base_buffer.specs.Answer.{Wrote};
ghost use Rattle.base_buffer.specs.Laid.{Lays};
ghost use Rattle.percent_coding.specs.Percent.{hex_digit, encoded, count_escaped};
ghost use Rattle.percent_sets.specs.Sets.{escapes};
ghost use Rattle.percent_encode.specs.Encode.{encode_reasons};

use base_buffer::WriteError;
use base_refusals::Refusal;
use base_sink::Page;
use percent_sets::Set;
pub use put::{Coded, put_encoded};

// How many bytes of a text the set escapes: encoded, the text is two bytes longer for each.
pub fn count_escaped(set: Set, s: &[u8]) -> usize
    ensures { (result ≡ count_escaped (escapes set) s.now) × (result ≤ length s.now) }
{
    let table = percent_sets::table();
    let mut n: usize = 0;
    for &b in s {
        n += percent_sets::escaped_by(table, set, b) as usize;
    }
    n
}

// The capital hex digit of a value.
fn hex_digit(n: u8) -> u8
    requires { n < 16 }
    ensures { result ≡ hex_digit n }
{
    if n <= 9 { 48 + n } else { 55 + n }
}

// Lays the encoded text over a buffer from `at` on: a copy, where nothing is escaped.
pub fn lay_encoded(set: Set, s: &[u8], out: &mut [u8], at: usize) -> usize
    ensures { Lays (encoded (escapes set) s.now) out.old at out.new result }
{
    let mut page = Page {
        at: at.min(out.len()),
        out,
    };
    put_encoded(set, s, &mut page);
    page.at
}

// Writes the encoded text at the start of a buffer. Refusals, in order: 24, the text is over 1,048,576 bytes; 22, with the length
// needed, where it does not fit. Where three bytes for each fit, any text does, and nothing is measured.
pub fn encode(set: Set, s: &[u8], out: &mut [u8]) -> Result<usize, WriteError>
    ensures { Wrote (encode_reasons s.now)
        (encoded (escapes set) s.now) out.old out.new result }
{
    if base_buffer::MOST_TEXT < s.len() {
        return Err(WriteError::Refused(Refusal::TooLong));
    }
    if 3 * s.len() <= out.len() {
        return Ok(lay_encoded(set, s, out, 0));
    }
    let need = s.len() + 2 * plain::count(set, s);
    if out.len() < need {
        return Err(WriteError::NoRoom(need));
    }
    lay_encoded(set, s, out, 0);
    Ok(need)
}

// The length of a text encoded by a set, at most three bytes for one; where no number is so large, the largest.
pub fn encoded_len(set: Set, s: &[u8]) -> usize
    ensures { (result ≡ min (length (encoded (escapes set) s.now)) (2 ^ 64 - 1)) × (result ≤ 3 * length s.now) }
{
    let escaped = plain::count(set, s);
    if (usize::MAX - s.len()) / 2 < escaped {
        return usize::MAX;
    }
    s.len() + 2 * escaped
}
