// Decodes the percent escapes of a text, once, and compares a text with what another decodes to.
// In the Rust: percent-encoding.
//
// `%` and two hex digits of either case give a byte; any other `%` stays, and reading goes on at the next byte. `+` is no space. Every
// function takes any bytes and numbers.
//
// Proved: what is decoded is the definition of `percent_coding`, byte by byte. Assumes nothing.
#![tactic(auto)]

mod hex;
mod put;

ghost use Rattle.std.specs.Prelude.{◌≡◌, [], ◌≤◌, ◌<◌, length};
ghost use Rattle.base_lists.specs.Bytes.{percent};
ghost use Rattle.base_scan.specs.Find.{found};
ghost use Rattle.base_words.specs.Same.{same};
ghost use Rattle.base_buffer.specs.Answer.{Wrote};
ghost use Rattle.base_buffer.specs.Laid.{Lays};
ghost use Rattle.percent_coding.specs.Percent.{decoded};
ghost use Rattle.percent_decode.specs.Inner.Unit.{Decodes};

use base_buffer::WriteError;
use base_sink::Page;
pub use put::put_decoded;

// A decoded byte, and where the next one begins.
#[derive(Clone, Copy)]
struct Unit {
    byte: u8,
    next: usize,
}

// The decoded byte that begins at i.
fn decode_at(s: &[u8], i: usize) -> Unit
    requires { i < length s.now }
    ensures { Decodes s.now i result.byte result.next }
{
    let x = s[i];
    let kept = Unit {
        byte: x,
        next: i + 1,
    };
    if x != b'%' {
        return kept;
    }
    if s.len() - i < 3 {
        return kept;
    }
    let high = hex::hex_value(s[i + 1]);
    let low = hex::hex_value(s[i + 2]);
    if (high < 16) & (low < 16) {
        return Unit {
            byte: high * 16 + low,
            next: i + 3,
        };
    }
    kept
}

// The first percent sign from `at` on, or the length. Not compiled into the loops below: there the search would take registers from the
// steps over escapes.
#[inline(never)]
fn next_sign(s: &[u8], at: usize) -> usize
    ensures first { result ≡ found percent at s.now }
    ensures within { result ≤ length s.now }
{
    base_scan::find(s, at, b'%')
}

// How long the text is when decoded. A step is one byte, three or a run, which no iterator makes. Runs without a percent sign count as
// they are. The next percent sign is sought only where a run begins: a search before each of many escapes that stand side by side would
// take longer than decoding them.
pub fn decoded_len(s: &[u8]) -> usize
    ensures { (result ≡ length (decoded s.now)) × (result ≤ length s.now) }
{
    let mut n: usize = 0;
    let mut i = 0;
    while i < s.len() {
        if s[i] == b'%' {
            i = decode_at(s, i).next;
            n += 1;
        } else {
            let sign = next_sign(s, i + 1);
            n += sign - i;
            i = sign;
        }
    }
    n
}

// Whether the text is `plain` when decoded: a comparison without a buffer, by steps of one byte or three, which no iterator makes.
pub fn decodes_to(s: &[u8], plain: &[u8]) -> bool
    ensures { result ≡ same (decoded s.now) plain.now }
{
    let mut i = 0;
    let mut j = 0;
    while i < s.len() {
        let unit = decode_at(s, i);
        if j == plain.len() {
            return false;
        }
        if plain[j] != unit.byte {
            return false;
        }
        i = unit.next;
        j += 1;
    }
    j == plain.len()
}

// Lays the decoded text over a buffer from `at` on.
pub fn lay_decoded(s: &[u8], out: &mut [u8], at: usize) -> usize
    ensures { Lays (decoded s.now) out.old at out.new result }
{
    let mut page = Page {
        at: at.min(out.len()),
        out,
    };
    put_decoded(s, &mut page);
    page.at
}

// Writes the decoded text at the start of a buffer; refusal 22, with the length needed, where it does not fit. Decoding makes no text
// longer, so where the text itself would fit the decoded one is laid without being measured first.
pub fn decode(s: &[u8], out: &mut [u8]) -> Result<usize, WriteError>
    ensures { Wrote [] (decoded s.now) out.old out.new result }
{
    if s.len() <= out.len() {
        return Ok(lay_decoded(s, out, 0));
    }
    let need = decoded_len(s);
    if out.len() < need {
        return Err(WriteError::NoRoom(need));
    }
    lay_decoded(s, out, 0);
    Ok(need)
}
