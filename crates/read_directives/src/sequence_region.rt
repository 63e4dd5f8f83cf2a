// `SequenceRegion::from_str`.
ghost use Rattle.std.specs.Prelude.{◌≡◌};
ghost use Rattle.read_directives.specs.SequenceRegion.{region_of};

use super::words::word;
use base_refusals::Refusal;
use base_scan::Place;
use read_numbers::region_position;

#[derive(Clone, Copy)]
pub struct SequenceRegion {
    // Where the name stands in the text.
    pub name: Place,
    pub start: u64,
    pub end: u64,
}

// A region: name, start, end. One space gives 10, `sq0 8` gives 13, `sq0 0 9` gives 12. Start may exceed end; extra words are ignored.
// The refusals are 6, and 10 to 14.
pub fn parse_sequence_region(text: &[u8]) -> Result<SequenceRegion, Refusal>
    ensures { result ≡ region_of text.now }
{
    if text.is_empty() {
        return Err(Refusal::Empty);
    }
    let name = word(text, 0, Refusal::RegionNameMissing)?;
    let first = word(text, name.end, Refusal::RegionStartMissing)?;
    let start = region_position(base_scan::text(text, first)).ok_or(Refusal::RegionStart)?;
    let second = word(text, first.end, Refusal::RegionEndMissing)?;
    let end = region_position(base_scan::text(text, second)).ok_or(Refusal::RegionEnd)?;
    Ok(SequenceRegion { name, start, end })
}
