// What of a text is escaped, asked of many bytes at once: whether nothing is, as in most, and how many bytes are.
ghost use Rattle.std.specs.Prelude.{◌≡◌, true, not, ◌+◌, ◌≤◌, eqb, length, take, drop};
ghost use Rattle.percent_coding.specs.Percent.{encoded, count_escaped};
ghost use Rattle.percent_sets.specs.Sets.{escapes};
ghost use Rattle.percent_sets.specs.declared.Set.TheVariants.{Attribute};

use percent_sets::Set;

// Whether a byte stands for itself in a tag or a value. By ranges and not by the table: of a fixed number of such tests LLVM makes a few
// instructions on 16 bytes at once.
fn stands(b: u8) -> bool
    ensures { result ≡ not (escapes Attribute b) }
{
    ((b' ' <= b) & (b <= b'$'))
        | ((b'\'' <= b) & (b <= b'+'))
        | ((b'-' <= b) & (b <= b':'))
        | (b == b'<')
        | ((b'>' <= b) & (b <= b'~'))
}

// Whether each of n bytes from `at` on stands for itself. All are asked: `all` of an iterator would stop at the first that does not, by a
// branch for each.
fn all_stand(s: &[u8], at: usize, n: usize) -> bool
    requires { at + n ≤ length s.now }
    ensures { result ≡ eqb (count_escaped (escapes Attribute) (take n (drop at s.now))) 0 }
{
    let mut all = true;
    for j in 0..n {
        all &= stands(s[at + j]);
    }
    all
}

// By windows of 16 bytes; the last one overlaps the one before it, so these are no chunks of an iterator.
fn many_stand(s: &[u8]) -> bool
    requires { 16 ≤ length s.now }
    ensures { result ≡ eqb (count_escaped (escapes Attribute) s.now) 0 }
{
    let last = s.len() - 16;
    let mut i = 0;
    while i < last {
        if !all_stand(s, i, 16) {
            return false;
        }
        i += 16;
    }
    all_stand(s, last, 16)
}

// Whether nothing of a text is escaped in a tag or a value. A short text by two windows of 8 or of 4 bytes that overlap. The slice is taken
// anew, `&given[..n]`, so that LLVM passes its pointer and its length in registers.
fn is_plain(given: &[u8]) -> bool
    ensures { result ≡ eqb (count_escaped (escapes Attribute) given.now) 0 }
{
    let n = given.len();
    let s = &given[..n];
    if 16 <= n {
        return many_stand(s);
    }
    if 8 <= n {
        return all_stand(s, 0, 8) & all_stand(s, n - 8, 8);
    }
    if 4 <= n {
        return all_stand(s, 0, 4) & all_stand(s, n - 4, 4);
    }
    all_stand(s, 0, n)
}

// True only where the encoded text is the text itself. What columns 2 and 3 escape, tags and values do too, so one test serves both; column
// 1 escapes more, and is not tested.
pub(crate) fn stays(set: Set, s: &[u8]) -> bool
    ensures { result ≡ true → encoded (escapes set) s.now ≡ s.now }
{
    match set {
        Set::Name => false,
        Set::Column | Set::Attribute => is_plain(s),
    }
}

// How many of 16 bytes are escaped in a tag or a value: so few that a byte counts them, and LLVM makes one test of all 16. Kept out of the
// loop over windows, of which LLVM would ask two at once, byte by byte.
#[inline(never)]
fn count_16(window: &[u8; 16]) -> usize
    ensures { (result ≡ count_escaped (escapes Attribute) window.now) × (result ≤ 16) }
{
    let mut n: u8 = 0;
    for &b in window {
        n += !stands(b) as u8;
    }
    n as usize
}

// How many bytes of a text are escaped in a tag or a value: by windows of 16, and what is left behind the last by the table.
fn count_many(s: &[u8]) -> usize
    ensures { (result ≡ count_escaped (escapes Attribute) s.now) × (result ≤ length s.now) }
{
    let (windows, rest) = s.as_chunks::<16>();
    let mut n = 0;
    for window in windows {
        n += count_16(window);
    }
    n + super::count_escaped(Set::Attribute, rest)
}

// How many bytes of a text the set escapes, as `count_escaped`. In columns 2 and 3 a long text is asked whether it stays as it is.
pub(crate) fn count(set: Set, s: &[u8]) -> usize
    ensures { (result ≡ count_escaped (escapes set) s.now) × (result ≤ length s.now) }
{
    match set {
        Set::Attribute => count_many(s),
        Set::Column if 16 <= s.len() && is_plain(s) => 0,
        Set::Name | Set::Column => super::count_escaped(set, s),
    }
}
