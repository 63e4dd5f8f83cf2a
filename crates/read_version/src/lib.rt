// Reads the value of a `gff-version` directive: major, and minor and patch if they are there.
// In the Rust: `GffVersion` in `directive_buf/value/gff_version.rs`.
//
// The parser goes from left to right and answers by value.
//
// Proved: the answer is the definition of specs/, and each refusal is given exactly when its reason holds and none further left does. What
// is written with one `.` between the parts reads back. Assumes nothing.
#![tactic(auto)]

ghost use Rattle.std.specs.Prelude.{◌≡◌, ok_or};
ghost use Rattle.base_scan.specs.Part as scan;
ghost use Rattle.read_numbers.specs.Number.{version_part};
ghost use Rattle.read_version.specs.GffVersion.{version_of};

use base_refusals::Refusal;

// Minor and patch may be absent.
#[derive(Clone, Copy, Debug, PartialEq, Eq)]
pub struct GffVersion {
    pub major: u32,
    pub minor: Option<u32>,
    pub patch: Option<u32>,
}

// The part from `at` on, before `to`.
fn part(text: &[u8], at: usize, to: usize, refusal: Refusal) -> Result<u32, Refusal>
    ensures { result ≡ ok_or (version_part (scan.part at to text.now)) refusal }
{
    let number = read_numbers::version_part(base_scan::part(text, at, to)).ok_or(refusal)?;
    Ok(number as u32)
}

// A version: major, and minor and patch if they are there. `3.1.26.4` gives 9, `3.` gives 8, and `+3` is major 3. Major need not be 3.
// The refusals are 6 to 9.
pub fn parse_gff_version(text: &[u8]) -> Result<GffVersion, Refusal>
    ensures { result ≡ version_of text.now }
{
    if text.is_empty() {
        return Err(Refusal::Empty);
    }
    let first = base_scan::find(text, 0, b'.');
    let major = part(text, 0, first, Refusal::Major)?;
    if first == text.len() {
        return Ok(GffVersion {
            major,
            minor: None,
            patch: None,
        });
    }
    let second = base_scan::find(text, first + 1, b'.');
    let minor = Some(part(text, first + 1, second, Refusal::Minor)?);
    if second == text.len() {
        return Ok(GffVersion {
            major,
            minor,
            patch: None,
        });
    }
    // All that is left: a fourth part makes it not valid.
    let patch = Some(part(text, second + 1, text.len(), Refusal::Patch)?);
    Ok(GffVersion {
        major,
        minor,
        patch,
    })
}
