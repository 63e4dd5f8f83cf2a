// `Bounds`: where columns 1 to 8 end.
ghost use Rattle.std.specs.Prelude.{◌≡◌, ◌+◌, ◌-◌, ◌≤◌, take, bit_and};
ghost use Rattle.std.specs.Int.Count.{count_trailing_zeros};
ghost use Rattle.base_lists.specs.Bytes.{tab};
ghost use Rattle.base_scan.specs.Find.{found};
ghost use Rattle.base_scan.specs.Mask.{mask};
ghost use Rattle.read_columns.specs.Columns.{ends, indexed, is_own};
ghost use Rattle.read_columns.specs.Inner.Near.{near_ends};

use base_refusals::Refusal;

// Eight places, each one past its column's tab; column 9 is the rest.
#[derive(Clone, Copy, Debug, PartialEq, Eq)]
pub struct Bounds {
    pub reference_sequence_name_end: usize,
    pub source_end: usize,
    pub type_end: usize,
    pub start_end: usize,
    pub end_end: usize,
    pub score_end: usize,
    pub strand_end: usize,
    pub phase_end: usize,
}

// A mask without its lowest digit: LLVM makes two instructions of it, and a search for the next tab takes thirty.
fn lower(m: u64) -> u64
    ensures { result ≡ bit_and m (m - 1) }
{
    m & std::num::wrapping_sub_u64(m, 1)
}

// One past the place of a mask's lowest digit; 65 where it has none.
fn past(m: u64) -> usize
    ensures { result ≡ count_trailing_zeros 64 m + 1 }
{
    u64::trailing_zeros(m) as usize + 1
}

// One past each of a mask's eight lowest digits: where its digits are the tabs of a line, the ends of the columns.
fn near_ends(m1: u64) -> Bounds
    ensures { result ≡ near_ends m1 }
{
    let m2 = lower(m1);
    let m3 = lower(m2);
    let m4 = lower(m3);
    let m5 = lower(m4);
    let m6 = lower(m5);
    let m7 = lower(m6);
    let m8 = lower(m7);
    Bounds {
        reference_sequence_name_end: past(m1),
        source_end: past(m2),
        type_end: past(m3),
        start_end: past(m4),
        end_end: past(m5),
        score_end: past(m6),
        strand_end: past(m7),
        phase_end: past(m8),
    }
}

// One past the next tab from `at` on, or one past the end where there is none. A tab among the first 64 bytes was found before: it is
// `near`.
fn past_tab(line: &[u8], near: usize, at: usize) -> usize
    requires { near ≤ 64 → near ≡ found tab at line.now + 1 }
    ensures { result ≡ found tab at line.now + 1 }
{
    if near <= 64 {
        return near;
    }
    base_scan::find(line, at, b'\t') + 1
}

// Eight cuts in a row. A tab that is missing gives an end past the line, and so do all after it, so one test at the end tells.
fn cut(line: &[u8], near: Bounds) -> Bounds
    requires { near ≡ near_ends (mask tab (take 64 line.now)) }
    ensures { result ≡ ends line.now }
{
    let reference_sequence_name_end = past_tab(line, near.reference_sequence_name_end, 0);
    let source_end = past_tab(line, near.source_end, reference_sequence_name_end);
    let type_end = past_tab(line, near.type_end, source_end);
    let start_end = past_tab(line, near.start_end, type_end);
    let end_end = past_tab(line, near.end_end, start_end);
    let score_end = past_tab(line, near.score_end, end_end);
    let strand_end = past_tab(line, near.strand_end, score_end);
    let phase_end = past_tab(line, near.phase_end, strand_end);
    Bounds {
        reference_sequence_name_end,
        source_end,
        type_end,
        start_end,
        end_end,
        score_end,
        strand_end,
        phase_end,
    }
}

// The bounds of a line; refused, by number 1, where it has fewer than eight tabs. Eight tabs alone have nine empty columns. Where the
// eight stand among the first 64 bytes, as they mostly do, one mask has them all.
pub fn index(line: &[u8]) -> Result<Bounds, Refusal>
    ensures { result ≡ indexed line.now }
{
    let near = near_ends(base_scan::marks(line, b'\t'));
    if near.phase_end <= 64 {
        return Ok(near);
    }
    let bounds = cut(line, near);
    if bounds.phase_end <= line.len() {
        Ok(bounds)
    } else {
        Err(Refusal::Columns)
    }
}

// Whether these are the line's own bounds: it has eight tabs, and none of the eight ends differs.
pub fn own(line: &[u8], bounds: Bounds) -> bool
    ensures { result ≡ is_own line.now bounds }
{
    index(line) == Ok(bounds)
}
