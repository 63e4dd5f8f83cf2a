// Numbers read: positions in columns 4 and 5, positions of a region, parts of a version.
ghost use Rattle.std.specs.Prelude.{◌≡◌, ◌≤◌};
ghost use Rattle.base_lists.specs.Bytes.{sans, plus};
ghost use Rattle.base_scan.specs.Find.{is};
ghost use Rattle.read_numbers.specs.Number.{numeral, position, region_position, version_part};

// One or more digits, whose value lies from `least` to `most`; else `None`. Which refusal that gives, the caller's place says. Behind
// `safe` any digit may follow, so the exact bound, which costs a division, is asked of numbers above it alone.
fn digits(s: &[u8], least: u64, most: u64) -> Option<u64>
    requires { 9 ≤ most }
    ensures { result ≡ numeral least most s.now }
{
    if s.len() == 0 {
        return None;
    }
    let safe = (most - 9) / 10;
    let mut v: u64 = 0;
    for &b in s {
        if b < 48 || b > 57 {
            return None;
        }
        let d = (b - 48) as u64;
        if v > safe && v > (most - d) / 10 {
            return None;
        }
        v = v * 10 + d;
    }
    if v < least { None } else { Some(v) }
}

// The text behind the one `+` that it may begin with.
fn past_plus<'a>(s: &'a [u8]) -> &'a [u8]
    ensures { result.now ≡ sans (is plus) s.now }
{
    match s.strip_prefix(b"+") {
        Some(rest) => rest,
        None => s,
    }
}

// A position in column 4 or 5: one or more ASCII digits, value 1 to 18446744073709551615, any number of leading zeros. A sign is
// refused, and so is the empty text.
pub fn position(s: &[u8]) -> Option<u64>
    ensures { result ≡ position s.now }
{
    digits(s, 1, 18446744073709551615)
}

// A position of a region, as the standard Rust reader takes it: `+8` is 8; `0`, `-0` and `+` are refused.
pub fn region_position(s: &[u8]) -> Option<u64>
    ensures { result ≡ region_position s.now }
{
    digits(past_plus(s), 1, 18446744073709551615)
}

// A part of a version: an optional `+` and digits, at most 4294967295.
pub fn version_part(s: &[u8]) -> Option<u64>
    ensures { result ≡ version_part s.now }
{
    digits(past_plus(s), 0, 4294967295)
}
