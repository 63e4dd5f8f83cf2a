// Walks over a column 9 by a struct, `Attributes`, that keeps the lent column and the place in it.
// In the Rust: `Attributes` in `record/attributes.rs`.
//
// Each method takes the walker apart and leaves the work to one of `read_attributes` or `read_lookup`, on a slice and a cursor or a tag.
// So there are few, and none has a branch or a loop; `first_field` takes a plain slice, for callers that keep no walker.
//
// Proved: a walker starts at 0, answers the attribute at its own place in its own column, moves to the place given, and looks a tag up in
// its column; each promise allows one result. Assumes nothing.
#![tactic(auto)]

ghost use Rattle.std.specs.Prelude.{◌≡◌};
ghost use Rattle.read_lookup.specs.Lookup.{find_tag};
ghost use Rattle.read_attributes.specs.Step.{next_field};

use base_refusals::Refusal;
use base_scan::Place;
use read_attributes::Field;

// Column 9, and where the next attribute begins. Any place is allowed: `next_field` says what stands at one beyond the column.
#[derive(Clone, Copy)]
pub struct Attributes<'a> {
    pub column: &'a [u8],
    pub at: usize,
}

impl<'a> Attributes<'a> {
    // A walker over a column, at its start. The column may be `.` or empty: the walk is then done at once.
    pub fn walk_over(column: &'a [u8]) -> Self
        ensures { (result.column ≡ column.entry) × (result.at ≡ 0) }
    {
        Attributes { column, at: 0 }
    }

    // The attribute at the walker's place, or none where the walk is done. The walker stays there: `moved` to the field's `next` walks on.
    // A refusal is answered again by each call, as is the end.
    pub fn next(self) -> Result<Option<Field>, Refusal>
        ensures { result ≡ next_field self.entry.column.now self.entry.at }
    {
        read_attributes::next_field(self.column, self.at)
    }

    // The walker at another place of the same column: behind a field, at its `next`. No place is refused, and one in the middle of a field
    // starts a tag there.
    pub fn moved(self, at: usize) -> Self
        ensures { (result.column ≡ self.entry.column) × (result.at ≡ at) }
    {
        Attributes { at, ..self }
    }

    // Where the value of a tag stands in the walker's column, or none: a lookup over the whole column, wherever the walker stands. The tag
    // is compared as given, with the decoded tags; refusal 5 before a match is answered.
    pub fn get<'b>(self, tag: &'b [u8]) -> Result<Option<Place>, Refusal>
        ensures { result ≡ find_tag self.entry.column.now tag.now }
    {
        read_lookup::find_tag(self.column, tag)
    }
}

// The first attribute of a column, by a walker that is made and dropped here.
pub fn first_field(column: &[u8]) -> Result<Option<Field>, Refusal>
    ensures { result ≡ next_field column.now 0 }
{
    Attributes::walk_over(column).next()
}
