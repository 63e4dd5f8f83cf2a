// The places of a byte as a mask: in a window of 16, digit k says whether byte `at + k` is b. The vector's comparison and its digits are
// one pcmpeqb and one pmovmskb each. The windows of a text's first 64 bytes make one mask.
ghost use Rattle.std.specs.Prelude.{◌≡◌, ◌+◌, ◌*◌, ◌^◌, ◌≤◌, ◌<◌, length, take, drop, eqb};
ghost use Rattle.base_lists.specs.Bit.{bit};
ghost use Rattle.base_scan.specs.Mask.{mask};

use std::simd::prelude::*;

// 1 where x is b, else 0.
fn same(x: u8, b: u8) -> u32
    ensures { (result ≡ bit (eqb x b)) × (result < 2) }
{
    (x == b) as u32
}

pub(crate) fn mask16(s: &[u8], at: usize, b: u8) -> u32
    requires { at + 16 ≤ length s.now }
    ensures { (result ≡ mask b (take 16 (drop at s.now))) × (result < 65536) }
{
    u8x16::from_slice(&s[at..])
        .simd_eq(u8x16::splat(b))
        .to_bitmask() as u32
}

// The digits of w, put above the i digits of m.
fn above(m: u64, i: usize, w: u32) -> u64
    requires { (i < 64) × (m + 2 ^ i * w < 2 ^ 64) }
    ensures { result ≡ m + 2 ^ i * w }
{
    m + ((w as u64) << (i as u32))
}

// Byte by byte: for a text too short for a window.
fn marks_few(s: &[u8], b: u8) -> u64
    requires { length s.now < 16 }
    ensures { result ≡ mask b s.now }
{
    let mut m: u64 = 0;
    for i in 0..s.len() {
        m = above(m, i, same(s[i], b));
    }
    m
}

// By windows of 16 bytes; the last one overlaps the one before it, as in `find_many`, so these are no chunks of an iterator.
fn marks_many(s: &[u8], b: u8) -> u64
    requires { (16 ≤ length s.now) × (length s.now < 64) }
    ensures { result ≡ mask b s.now }
{
    let n = s.len();
    let last = n - 16;
    let mut m: u64 = 0;
    let mut i: usize = 0;
    while i <= last {
        m = above(m, i, mask16(s, i, b));
        i += 16;
    }
    if i < n {
        let w = mask16(s, last, b) >> ((i - last) as u32);
        m = above(m, i, w);
    }
    m
}

// Of the first 64 bytes.
fn marks_full(s: &[u8], b: u8) -> u64
    requires { 64 ≤ length s.now }
    ensures { result ≡ mask b (take 64 s.now) }
{
    u8x64::from_slice(s).simd_eq(u8x64::splat(b)).to_bitmask()
}

// Digit k, from the lowest, says whether byte k is b; bytes from the 65th on have none: `marks(b"a=b=", b'=')` is 2 + 8.
pub fn marks(given: &[u8], b: u8) -> u64
    ensures { result ≡ mask b (take 64 given.now) }
{
    let n = given.len();
    if n < 16 {
        return marks_few(given, b);
    }
    if n < 64 {
        marks_many(&given[..n], b)
    } else {
        marks_full(given, b)
    }
}
