// Finds a tab, a line feed, a `;` or any other byte in a text, 16 bytes at a time, and cuts parts out of a text.
// In the Rust: memchr.
//
// Everything above that cuts a text, at line feeds, tabs, `=`, `;`, `,` or `%`, goes through this crate, so it is built for speed. Every
// function takes any numbers: a cursor beyond the text counts as at its end.
//
// Proved: each answer equals the plain definition of specs/, byte by byte. Assumes nothing.
#![tactic(auto)]

mod mask;
mod place;

ghost use Rattle.std.specs.Prelude.{◌≡◌, ◌≢◌, ℕ, ◌≤◌, ◌<◌, length, position, slice_index, IfNone, IfSome};
ghost use Rattle.base_scan.specs.Find.{is, found, found_two, found_on, found_last};

pub use mask::marks;
pub use place::{Place, part, text};

// Two places, one behind the other.
#[derive(Clone, Copy)]
pub struct Two {
    pub first: usize,
    pub second: usize,
}

// Where the text has b first, byte by byte.
fn first_of(s: &[u8], b: u8) -> Option<usize>
    ensures { result ≡ position (is b) s.now }
{
    s.iter().position(|&x| x == b)
}

// Byte by byte: for a text too short for a window.
fn find_few(s: &[u8], at: usize, b: u8) -> usize
    requires { at ≤ length s.now }
    ensures { result ≡ found b at s.now }
{
    match first_of(&s[at..], b) {
        Some(k) => at + k,
        None => s.len(),
    }
}

// By windows of 16 bytes; the last one overlaps the one before it, and its lowest digits are shifted out, so these are no chunks of an
// iterator.
fn find_many(s: &[u8], at: usize, b: u8) -> usize
    requires { 16 ≤ length s.now }
    ensures { result ≡ found b at s.now }
{
    let n = s.len();
    let last = n - 16;
    let mut i = at;
    while i <= last {
        let m = mask::mask16(s, i, b);
        if m != 0 {
            return i + u32::trailing_zeros(m) as usize;
        }
        i += 16;
    }
    if i < n {
        let m = mask::mask16(s, last, b) >> ((i - last) as u32);
        if m != 0 {
            return i + u32::trailing_zeros(m) as usize;
        }
    }
    n
}

// The first index from `at` where the text has b, or its length where there is none: `find(b"a=b", 0, b'=')` is 1, and
// `find(b"a=b", 2, b'=')` and `find(b"a=b", 9, b'=')` are 3. The slice is taken anew, `&given[..n]`, so that LLVM passes its pointer
// and its length in registers.
pub fn find(given: &[u8], at: usize, b: u8) -> usize
    ensures first { result ≡ found b at given.now }
    ensures within { result ≤ length given.now }
{
    let n = given.len();
    if n <= at {
        return n;
    }
    let s = &given[..n];
    if n < 16 {
        find_few(s, at, b)
    } else {
        find_many(s, at, b)
    }
}

// The next b, sought in the window at the cursor first. One function with the number of windows would not become part of `find_two` twice.
fn near_first(s: &[u8], at: usize, b: u8) -> usize
    requires { at ≤ length s.now }
    ensures { result ≡ found b at s.now }
{
    if s.len() - at < 16 {
        return find(s, at, b);
    }
    let m = mask::mask16(s, at, b);
    if m != 0 {
        return at + u32::trailing_zeros(m) as usize;
    }
    find(s, at + 16, b)
}

// The next b, sought in the two windows at the cursor first.
fn near_second(s: &[u8], at: usize, b: u8) -> usize
    requires { at ≤ length s.now }
    ensures { result ≡ found b at s.now }
{
    if s.len() - at < 32 {
        return find(s, at, b);
    }
    let m = mask::mask16(s, at, b);
    if m != 0 {
        return at + u32::trailing_zeros(m) as usize;
    }
    let w = mask::mask16(s, at + 16, b);
    if w != 0 {
        return at + 16 + u32::trailing_zeros(w) as usize;
    }
    find(s, at + 32, b)
}

// The first b from `at` on, and the first c behind it; the length for each that there is not: `find_two(b"a=1;b=2", 0, b'=', b';')` is 1
// and 3. Both are mostly near, so the windows at the cursor become part of the caller, which has each search once, and only what they do
// not have is left to `find`.
pub fn find_two(given: &[u8], at: usize, b: u8, c: u8) -> Two
    ensures places { result ≡ found_two b c at given.now }
    ensures within { (result.first ≤ length given.now) × (result.second ≤ length given.now) }
{
    let n = given.len();
    if n <= at {
        return Two {
            first: n,
            second: n,
        };
    }
    let s = &given[..n];
    let first = near_first(s, at, b);
    if first == n {
        return Two {
            first: n,
            second: n,
        };
    }
    Two {
        first,
        second: near_second(s, first + 1, c),
    }
}

// The first b from `at` on, where `known` is the first one from some place before on: it is sought again only where it was passed.
pub fn find_on(s: &[u8], known: usize, at: usize, b: u8) -> usize
    ensures { result ≡ found_on b known at s.now }
{
    if known < at {
        return find(s, at, b);
    }
    known
}

// A place from which on no b stands: one past the last b that a window of 16 bytes has, from the end on, or what is left where none has.
fn past_last(s: &[u8], b: u8) -> usize
    ensures { (found b result s.now ≡ length s.now) × (result ≤ length s.now) }
{
    let mut i = s.len();
    while 16 <= i {
        let m = mask::mask16(s, i - 16, b);
        if m != 0 {
            return i - 16 + (32 - u32::leading_zeros(m) as usize);
        }
        i -= 16;
    }
    i
}

// Where the text has b last, byte by byte.
fn last_of(s: &[u8], b: u8) -> Option<usize>
    ensures none { IfNone result ((k : ℕ) → k < length s.now → slice_index s.now k ≢ b) }
    ensures some { IfSome result (λ i. (i < length s.now) × (slice_index s.now i ≡ b)
        × ((k : ℕ) → i < k → k < length s.now → slice_index s.now k ≢ b)) }
{
    s.iter().rposition(|&x| x == b)
}

// The last index where the text has b, or its length where there is none: `find_last(b"a=b=", b'=')` is 3.
pub fn find_last(s: &[u8], b: u8) -> usize
    ensures { result ≡ found_last b s.now }
{
    let end = past_last(s, b);
    match last_of(&s[..end], b) {
        Some(i) => i,
        None => s.len(),
    }
}
