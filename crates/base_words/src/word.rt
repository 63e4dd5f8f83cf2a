// White space and words (RULES 2.4): ASCII white space is space, tab, LF, FF and CR.
ghost use Rattle.std.specs.Prelude.{◌≡◌, ◌≤◌, length, position};
ghost use Rattle.base_words.specs.Word.{is_space, is_ink, space, ink, word};

use base_scan::Place;

// By tests and not by the library's method, which has a branch more for each byte of a search.
pub fn is_space(b: u8) -> bool
    ensures { result ≡ is_space b }
{
    (b == b' ') | (b == b'\t') | (b == b'\n') | (b == 12) | (b == b'\r')
}

fn first_space(s: &[u8]) -> Option<usize>
    ensures { result ≡ position is_space s.now }
{
    s.iter().position(|&b| is_space(b))
}

fn first_ink(s: &[u8]) -> Option<usize>
    ensures { result ≡ position is_ink s.now }
{
    s.iter().position(|&b| !is_space(b))
}

// The first white space from `at` on, or the length.
pub fn find_space(s: &[u8], at: usize) -> usize
    ensures first { result ≡ space at s.now }
    ensures within { result ≤ length s.now }
{
    match first_space(base_scan::part(s, at, s.len())) {
        Some(k) => at + k,
        None => s.len(),
    }
}

// The first byte from `at` on that is no white space, or the length.
pub fn find_ink(s: &[u8], at: usize) -> usize
    ensures first { result ≡ ink at s.now }
    ensures within { result ≤ length s.now }
{
    match first_ink(base_scan::part(s, at, s.len())) {
        Some(k) => at + k,
        None => s.len(),
    }
}

// The next word from `at` on: in ` sq0 8` from 4 on it is the `8` at 5. No word is left where it starts at the text's length.
pub fn next_word(s: &[u8], at: usize) -> Place
    ensures { result ≡ word s.now at }
{
    let start = find_ink(s, at);
    let end = find_space(s, start);
    Place { start, end }
}
