// Finds the value of an attribute by its tag, or answers the caller's fallback where there is none.
// In the Rust: `Attributes::get` in `record/attributes.rs`.
//
// The lookup with a fallback is added.
//
// Proved: each answer is the definition of specs/. A lookup decodes each tag and needs no buffer for it. Assumes nothing.
#![tactic(auto)]

ghost use Rattle.std.specs.Prelude.{◌≡◌};
ghost use Rattle.read_lookup.specs.Lookup.{find_tag, value_or};

use base_refusals::Refusal;
use base_scan::Place;

// Where the value of the first attribute stands whose decoded tag is `tag`, or none where the tag is absent; refusal 5 where that comes
// before a match. The tag is compared as given; no buffer is needed. An empty value is a found value.
pub fn find_tag(column: &[u8], tag: &[u8]) -> Result<Option<Place>, Refusal>
    ensures { result ≡ find_tag column.now tag.now }
{
    let mut at = 0;
    while let Some(field) = read_attributes::next_field(column, at)? {
        if percent_decode::decodes_to(base_scan::text(column, field.tag), tag) {
            return Ok(Some(field.value));
        }
        at = field.next;
    }
    Ok(None)
}

// The raw value of a tag as a part of the column, or the fallback where the tag is absent or 5 comes first. `find_tag` says which.
#[tactic(auto, using(crate::proofs::LookupLaws::value_absent))]
pub fn value_or<'a>(column: &'a [u8], tag: &'a [u8], fallback: &'a [u8]) -> &'a [u8]
    ensures { result.now ≡ value_or column.now tag.now fallback.now }
{
    match find_tag(column, tag).unwrap_or(None) {
        Some(place) => base_scan::text(column, place),
        None => fallback,
    }
}
