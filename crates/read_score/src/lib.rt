// Tells whether a text is a score token, as column 6 has it; the score stays text.
// In the Rust: `parse_score` in `record.rs`.
//
// Proved: the answer is the grammar of specs/. Assumes nothing.
#![tactic(auto)]

ghost use Rattle.std.specs.Prelude.{◌≡◌, ◌≤◌, length, drop, position};
ghost use Rattle.base_scan.specs.Find.{seek, is};
ghost use Rattle.base_lists.specs.Bytes.{sans, minus};
ghost use Rattle.read_score.specs.Score.{no_digit, is_sign, is_exponent, is_fraction, is_score};

fn first_other(s: &[u8]) -> Option<usize>
    ensures { result ≡ position no_digit s.now }
{
    s.iter().position(|b| !b.is_ascii_digit())
}

// The first byte from `at` on that is no digit, or the length.
fn digits_end(s: &[u8], at: usize) -> usize
    ensures first { result ≡ seek no_digit at s.now }
    ensures within { result ≤ length s.now }
{
    match first_other(base_scan::part(s, at, s.len())) {
        Some(k) => at + k,
        None => s.len(),
    }
}

// Behind the one `+` or `-` that may stand at the cursor.
fn past_sign(s: &[u8], at: usize) -> usize
    ensures { drop result s.now ≡ sans is_sign (drop at s.now) }
{
    if let Some(&x) = s.get(at) {
        if (x == b'+') | (x == b'-') {
            return at + 1;
        }
    }
    at
}

// Nothing from `at` on, or `e` or `E` with optional sign and digits.
fn is_exponent(s: &[u8], at: usize) -> bool
    ensures { result ≡ is_exponent (drop at s.now) }
{
    let Some(&x) = s.get(at) else {
        return true;
    };
    if (x != b'e') & (x != b'E') {
        return false;
    }
    let from = past_sign(s, at + 1);
    (from < s.len()) & (digits_end(s, from) == s.len())
}

// Optional `.` and digits from `at` on, and the exponent.
fn is_fraction(s: &[u8], at: usize) -> bool
    ensures { result ≡ is_fraction (drop at s.now) }
{
    let Some(&x) = s.get(at) else {
        return true;
    };
    if x != b'.' {
        return is_exponent(s, at);
    }
    let from = at + 1;
    let to = digits_end(s, from);
    if to <= from {
        return false;
    }
    is_exponent(s, to)
}

// The text behind the one `-` that it may begin with.
fn unsigned<'a>(s: &'a [u8]) -> &'a [u8]
    ensures { result.now ≡ sans (is minus) s.now }
{
    match s.strip_prefix(b"-") {
        Some(rest) => rest,
        None => s,
    }
}

// Whether a text is a score token: optional `-`, digits, optional `.` and digits, optional `e` or `E` with optional sign and digits;
// each run of digits has at least one.
pub fn is_score(s: &[u8]) -> bool
    ensures { result ≡ is_score s.now }
{
    let digits = unsigned(s);
    let to = digits_end(digits, 0);
    if to == 0 {
        return false;
    }
    is_fraction(digits, to)
}
