// `field::next`: a step of the walk over column 9.
ghost use Rattle.std.specs.Prelude.{◌≡◌};
ghost use Rattle.read_attributes.specs.Attributes.{is_empty};
ghost use Rattle.read_attributes.specs.Step.{next_field};

use base_refusals::Refusal;
use base_scan::Place;

// An attribute as it stands in the column, and the cursor behind it.
#[derive(Clone, Copy)]
pub struct Field {
    pub tag: Place,
    pub value: Place,
    pub next: usize,
}

// `Attributes::is_empty`: the column is `.` or has no byte.
pub fn is_empty(column: &[u8]) -> bool
    ensures { result ≡ is_empty column.now }
{
    column.is_empty() || base_words::is_dot(column)
}

// The attribute at a cursor, or none where the walk is done. Refusal 5 where text is left without `=`: the next step from there answers the
// same. `a=1;b;c=2` has the tags `a` and `b;c`; `a=1;` has one; `a=1;b` has one, and then 5. A cursor in the middle of a field starts the
// tag there, and one beyond the column is done.
pub fn next_field(column: &[u8], at: usize) -> Result<Option<Field>, Refusal>
    ensures { result ≡ next_field column.now at }
{
    if base_words::is_dot(column) || column.len() <= at {
        return Ok(None);
    }
    let cuts = base_scan::find_two(column, at, b'=', b';');
    let equals = cuts.first;
    if equals == column.len() {
        return Err(Refusal::Attribute);
    }
    let from = equals + 1;
    let end = cuts.second;
    let tag = Place {
        start: at,
        end: equals,
    };
    let value = Place { start: from, end };
    Ok(Some(Field {
        tag,
        value,
        next: base_numbers::least(end + 1, column.len()),
    }))
}
