// Cuts the value of an attribute at each `,` and hands out its strings one by one, not yet decoded.
// In the Rust: `Array::iter` in `record/attributes/field/value/array.rs`.
//
// With no `,` the value is one string.
//
// Proved: a step is its definition, and steps in a row hand out exactly the pieces of the text between commas. Assumes nothing.
#![tactic(auto)]

ghost use Rattle.std.specs.Prelude.{◌≡◌};
ghost use Rattle.read_values.specs.Step.{fresh, next_value};

use base_scan::Place;

// Where the next value begins, and whether the last one is out: `a,` ends with an empty value still to come.
#[derive(Clone, Copy)]
pub struct ValueCursor {
    pub at: usize,
    pub out: bool,
}

impl ValueCursor {
    // The start of a value.
    pub fn new() -> Self
        ensures { result ≡ fresh }
    {
        ValueCursor { at: 0, out: false }
    }
}

// The next value from a cursor on, as it stands, and the cursor behind it; none where the last one is out. An empty text is one empty
// value.
pub fn next_value(value: &[u8], cursor: ValueCursor) -> Option<(Place, ValueCursor)>
    ensures { result ≡ next_value value.now cursor }
{
    if cursor.out {
        return None;
    }
    let at = base_numbers::least(cursor.at, value.len());
    let end = base_scan::find(value, at, b',');
    let place = Place { start: at, end };
    let next = ValueCursor {
        at: base_numbers::least(end + 1, value.len()),
        out: end == value.len(),
    };
    Some((place, next))
}
