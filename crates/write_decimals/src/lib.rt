// Writes a number in decimal digits without leading zeros, and proves that it reads back.
// In the Rust: `io/writer/num.rs`, `Display` of numbers.
//
// The length is known before the first byte.
//
// Proved: what is written is the definition of specs/, and reads back as a position, a region's position or a part of a version. Assumes
// nothing.
#![tactic(auto)]

ghost use Rattle.std.specs.Prelude.{◌≡◌, [], ◌≤◌, length};
ghost use Rattle.base_buffer.specs.Answer.{Wrote};
ghost use Rattle.base_buffer.specs.Laid.{Lays};
ghost use Rattle.write_decimals.specs.Decimal.{decimal};

use base_buffer::WriteError;
use base_sink::{Page, Sink};

// How many digits n has: 1 to 20.
pub fn decimal_len(n: u64) -> usize
    ensures { (result ≡ length (decimal n)) × (result ≤ 20) }
{
    match n.checked_ilog10() {
        Some(k) => 1 + k as usize,
        None => 1,
    }
}

// Lays the digits of n over a buffer from `at` on.
pub fn lay_decimal(n: u64, out: &mut [u8], at: usize) -> usize
    ensures { Lays (decimal n) out.old at out.new result }
{
    let mut page = Page {
        at: at.min(out.len()),
        out,
    };
    put_decimal(n, &mut page);
    page.at
}

// Puts the digits of n into a sink.
pub fn put_decimal<S: Sink>(n: u64, sink: &mut S)
    ensures { S.took (decimal n) sink.old sink.new }
{
    if n < 10 {
        sink.byte(48 + n as u8);
        return;
    }
    put_decimal(n / 10, sink);
    sink.byte(48 + (n % 10) as u8);
}

// Writes the digits of n at the start of a buffer; refusal 22 where they do not fit.
pub fn write_decimal(n: u64, out: &mut [u8]) -> Result<usize, WriteError>
    ensures { Wrote [] (decimal n) out.old out.new result }
{
    let need = decimal_len(n);
    if out.len() < need {
        return Err(WriteError::NoRoom(need));
    }
    lay_decimal(n, out, 0);
    Ok(need)
}
