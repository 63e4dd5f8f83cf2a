// The sheet of a line, laid piece by piece over a lent buffer.
ghost use Rattle.std.specs.Prelude.{◌≡◌, true, false, ◌+◌, ◌*◌, ◌≤◌, length};
ghost use mathlib.Core.List.{[], ◌∷◌, flat_map};
ghost use Rattle.read_columns.specs.declared.column.Column.TheVariants as column;
ghost use Rattle.read_columns.specs.Columns.{ends, column_text};
ghost use Rattle.read_attributes.specs.Attributes.{values, attribute, attributes, walk};
ghost use Rattle.base_buffer.specs.Laid.{Lays};
ghost use Rattle.percent_coding.specs.Percent.{decoded};
ghost use Rattle.sheet_form.specs.Sheet.{section_of, attribute_of, sheet_of};
ghost use Rattle.read_judge.specs.Judge.{stuck, got, unfolded};
ghost use Rattle.read_record.specs.Unfold.{Unfolds};
ghost use Rattle.read_record.specs.Inner.Texts.{texts_of};

use base_buffer::WriteError;
use base_refusals::Refusal;
use read_columns::{Bounds, Column};
use read_judge::Numbers;
use read_values::ValueCursor;

// Where the attributes end that were laid, and how many they are.
#[derive(Clone, Copy)]
struct Laid {
    to: usize,
    count: usize,
}

// Lays a text, decoded, after its count. One that is known to have no percent sign is copied.
fn lay_text(text: &[u8], plain: bool, out: &mut [u8], at: usize) -> usize
    requires { plain ≡ true → decoded text.now ≡ text.now }
    ensures { Lays (section_of (decoded text.now)) out.old at out.new result }
{
    if plain {
        return sheet_sections::lay_section(text, out, at);
    }
    sheet_sections::lay_decoded_section(text, out, at)
}

fn value_count(value: &[u8]) -> usize
    ensures { result ≡ length (values value.now) }
{
    let mut n: usize = 0;
    let mut cursor = ValueCursor::new();
    while let Some((_, next)) = read_values::next_value(value, cursor) {
        n += 1;
        cursor = next;
    }
    n
}

fn lay_values(value: &[u8], out: &mut [u8], at: usize) -> usize
    ensures { Lays (flat_map section_of (values value.now)) out.old at out.new result }
{
    let mut to = base_numbers::least(at, out.len());
    let mut cursor = ValueCursor::new();
    while let Some((place, next)) = read_values::next_value(value, cursor) {
        to = sheet_sections::lay_decoded_section(base_scan::text(value, place), out, to);
        cursor = next;
    }
    to
}

// Lays an attribute. One that is known to have neither a percent sign nor a `,` has one value, and both texts are copied.
fn lay_attribute(tag: &[u8], value: &[u8], plain: bool, out: &mut [u8], at: usize) -> usize
    requires { plain ≡ true → (decoded tag.now ≡ tag.now) × (values value.now ≡ value.now ∷ []) }
    ensures { Lays (attribute_of (attribute tag.now value.now)) out.old at out.new result }
{
    let count = lay_text(tag, plain, out, at);
    if plain {
        let only = sheet_sections::lay_count(1, out, count);
        return sheet_sections::lay_section(value, out, only);
    }
    let first = sheet_sections::lay_count(value_count(value), out, count);
    lay_values(value, out, first)
}

// Lays the attributes, and counts them. The next percent sign and the next `,` are looked for once for all of them: an attribute that ends
// before both, as most do, has none.
fn lay_attributes(column: &[u8], out: &mut [u8], at: usize) -> Laid
    requires { stuck (attributes (walk column.now)) ≡ false }
    ensures { Lays (flat_map attribute_of (got (attributes (walk column.now)))) out.old at out.new result.to
        × (result.count ≡ length (got (attributes (walk column.now)))) }
{
    let mut to = base_numbers::least(at, out.len());
    let mut count: usize = 0;
    let mut from = 0;
    let mut percent = base_scan::find(column, 0, b'%');
    let mut comma = base_scan::find(column, 0, b',');
    while let Some(field) = read_attributes::next_field(column, from).unwrap_or(None) {
        let end = field.value.end;
        to = lay_attribute(
            base_scan::text(column, field.tag),
            base_scan::text(column, field.value),
            (end <= percent) & (end <= comma),
            out,
            to,
        );
        percent = base_scan::find_on(column, percent, end, b'%');
        comma = base_scan::find_on(column, comma, end, b',');
        count += 1;
        from = field.next;
    }
    Laid { to, count }
}

// The first four sections. A column that ends before the first percent sign has none.
fn lay_texts(line: &[u8], bounds: Bounds, out: &mut [u8]) -> usize
    requires { bounds ≡ ends line.now }
    ensures { Lays (texts_of (unfolded line.now)) out.old 0 out.new result }
{
    let name = read_columns::text_in(line, bounds, Column::ReferenceSequenceName);
    let source = read_columns::text_in(line, bounds, Column::Source);
    let ty = read_columns::text_in(line, bounds, Column::Ty);
    let score = read_judge::score(read_columns::text_in(line, bounds, Column::Score));
    let percent = base_scan::find(base_scan::part(line, 0, bounds.type_end), 0, b'%');
    let mut at = lay_text(name, bounds.reference_sequence_name_end <= percent, out, 0);
    at = lay_text(source, bounds.source_end <= percent, out, at);
    at = lay_text(ty, bounds.type_end <= percent, out, at);
    sheet_sections::lay_section(score, out, at)
}

// The sections in their order, of a record whose bounds these are. A count of none keeps the place of the attributes' own, which is known
// when they are laid.
fn lay_sheet(line: &[u8], bounds: Bounds, out: &mut [u8]) -> usize
    requires { (bounds ≡ ends line.now) × (stuck (attributes (walk (column_text column.Attributes line.now))) ≡ false) }
    ensures { Lays (sheet_of (unfolded line.now)) out.old 0 out.new result }
{
    let at = lay_texts(line, bounds, out);
    let first = sheet_sections::lay_count(0, out, at);
    let rest = read_columns::text_in(line, bounds, Column::Attributes);
    let laid = lay_attributes(rest, out, first);
    sheet_sections::lay_count(laid.count, out, at);
    laid.to
}

// Unfolds a line whose sheet fits, as it does where there is room for ten bytes for each of the line's and for the counts that every sheet
// has: nothing is measured, and the place behind the sheet is its length.
fn unfold_at_once(line: &[u8], out: &mut [u8]) -> Result<(Numbers, usize), WriteError>
    requires { 26 + 10 * length line.now ≤ length out.old }
    ensures { Unfolds line.now out.old out.new result }
{
    let (numbers, bounds) = read_judge::admit(line)?;
    Ok((numbers, lay_sheet(line, bounds, out)))
}

// Lays the sheet of a line at the start of a buffer, and answers the numbers beside it and its length. Refusals, in order: 24, over
// 4,194,304 bytes; 1; 2 (start, then end); 17; 3; 4; 5; 22, with the sheet's length. A refused line changes no byte, and bytes behind the
// sheet stay.
pub fn unfold(line: &[u8], out: &mut [u8]) -> Result<(Numbers, usize), WriteError>
    ensures { Unfolds line.now out.old out.new result }
{
    if base_buffer::MOST_LINE < line.len() {
        return Err(WriteError::Refused(Refusal::TooLong));
    }
    if 26 + 10 * line.len() <= out.len() {
        return unfold_at_once(line, out);
    }
    let (numbers, bounds, length) = read_judge::survey(line)?;
    if out.len() < length {
        return Err(WriteError::NoRoom(length));
    }
    lay_sheet(line, bounds, out);
    Ok((numbers, length))
}
