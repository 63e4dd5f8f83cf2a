// Cases of column 9. It is walked and looked up in by the walker, which leaves the work to `read_attributes::next_field` and
// `read_lookup::find_tag`.
ghost use Rattle.std.specs.Prelude.{◌≡◌};
ghost use Rattle.read_attributes.specs.Step.{next_field};
ghost use Rattle.read_lookup.specs.Lookup.{find_tag};

use base_refusals::Refusal;
use base_scan::Place;
use program_replay_words::show;
use read_attributes::Field;
use read_values::ValueCursor;
use read_walker::Attributes;

fn tag_and_value(column: &[u8], field: Field) {
    show::text(column, field.tag);
    show::text(column, field.value)
}

// F COLUMN: the first tag and value as they stand, or a dot or 5
pub fn first(column: &[u8]) {
    match read_walker::first_field(column) {
        Ok(Some(field)) => tag_and_value(column, field),
        Ok(None) => show::done(),
        Err(refusal) => show::refused(refusal.number()),
    }
}

// The attribute at a place of a column, by a walker that is made, moved there and dropped here.
fn field_at(column: &[u8], at: usize) -> Result<Option<Field>, Refusal>
    ensures { result ≡ next_field column.now at }
{
    Attributes::walk_over(column).moved(at).next()
}

// Each tag and value as they stand.
fn fields(column: &[u8]) -> Result<(), Refusal> {
    let mut from = 0;
    while let Some(field) = field_at(column, from)? {
        tag_and_value(column, field);
        from = field.next;
    }
    Ok(())
}

// W COLUMN: each tag and value as they stand, and a dot or 5
pub fn walk(column: &[u8]) {
    match fields(column) {
        Ok(()) => show::done(),
        Err(refusal) => show::refused(refusal.number()),
    }
}

// One value, decoded.
fn decoded(value: &[u8]) {
    let mut room = [170u8; 16];
    let answer = percent_decode::decode(value, &mut room);
    show::written(answer, &room)
}

// V VALUE: each value, decoded, and a dot
pub fn values_of(value: &[u8]) {
    let mut cursor = ValueCursor::new();
    for _ in 0..513 {
        let Some((place, next)) = read_values::next_value(value, cursor) else {
            return show::done();
        };
        decoded(base_scan::text(value, place));
        cursor = next;
    }
}

// Where the value of a tag stands, by a walker that is made and dropped here.
fn value_of<'a, 'b>(column: &'a [u8], tag: &'b [u8]) -> Result<Option<Place>, Refusal>
    ensures { result ≡ find_tag column.now tag.now }
{
    Attributes::walk_over(column).get(tag)
}

fn found(column: &[u8], answer: Result<Option<Place>, Refusal>) {
    match answer {
        Ok(Some(place)) => show::text(column, place),
        Ok(None) => show::word(b"none"),
        Err(refusal) => show::refused(refusal.number()),
    }
}

// T COLUMN TAG: the raw value of a tag, and what the lookup with the fallback `?` answers
pub fn lookup_of<'a>(column: &'a [u8], tag: &'a [u8]) {
    found(column, value_of(column, tag));
    show::hex(read_lookup::value_or(column, tag, b"?"))
}
