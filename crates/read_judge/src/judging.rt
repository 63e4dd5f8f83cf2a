// A line judged: what refuses it, or its numbers and how long its sheet is.
ghost use Rattle.std.specs.Prelude.{◌≡◌, true, false, ◌+◌, ◌*◌, ◌≤◌, length};
ghost use mathlib.Core.List.{[], ◌∷◌, flat_map};
ghost use Rattle.base_lists.specs.Limits.{most_line};
ghost use Rattle.read_columns.specs.declared.column.Column.TheVariants as column;
ghost use Rattle.read_columns.specs.Columns.{ends, column_text};
ghost use Rattle.percent_coding.specs.Percent.{decoded};
ghost use Rattle.read_attributes.specs.Attributes.{values, attribute, attributes, walk};
ghost use Rattle.sheet_form.specs.Sheet.{section_of, counted_of, attribute_of, sheet_of};
ghost use Rattle.read_judge.specs.Judge.{got, unfolded, stuck, judged};
ghost use Rattle.read_judge.specs.Survey.{surveyed};
ghost use Rattle.read_judge.specs.Inner.Fields.{numbers_in};
ghost use Rattle.read_judge.specs.Inner.Size.{texts_length};

use base_refusals::Refusal;
use read_columns::{Bounds, Column};
use read_fields::Record;
use read_tokens::{Phase, Strand};
use read_values::ValueCursor;

// What goes beside the sheet.
#[derive(Clone, Copy)]
pub struct Numbers {
    pub start: u64,
    pub end: u64,
    pub strand: Strand,
    pub phase: Phase,
}

// How long the values of an attribute are on the sheet, with their count.
fn values_len(value: &[u8]) -> usize
    requires { length value.now ≤ most_line }
    ensures { (result ≡ length (counted_of section_of (values value.now))) × (result ≤ 8 + 4 * length value.now) }
{
    let mut n: usize = 4;
    let mut cursor = ValueCursor::new();
    while let Some((place, next)) = read_values::next_value(value, cursor) {
        n += 4 + percent_decode::decoded_len(base_scan::text(value, place));
        cursor = next;
    }
    n
}

// How long an attribute is on the sheet. One that is known to have neither a percent sign nor a `,` has one value, and both texts as they
// stand.
fn attribute_len(tag: &[u8], value: &[u8], plain: bool) -> usize
    requires { (length tag.now ≤ most_line) × (length value.now ≤ most_line)
        × (plain ≡ true → (decoded tag.now ≡ tag.now) × (values value.now ≡ value.now ∷ [])) }
    ensures { (result ≡ length (attribute_of (attribute tag.now value.now)))
        × (result ≤ 12 + length tag.now + 4 * length value.now) }
{
    if plain {
        return 12 + tag.len() + value.len();
    }
    4 + percent_decode::decoded_len(tag) + values_len(value)
}

// How long the attributes of column 9 are on the sheet. The next percent sign and the next `,` are looked for once for all of them.
fn attributes_len(column: &[u8]) -> usize
    requires { (length column.now ≤ most_line) × (stuck (attributes (walk column.now)) ≡ false) }
    ensures { result ≡ length (flat_map attribute_of (got (attributes (walk column.now)))) }
{
    let mut n: usize = 0;
    let mut at = 0;
    let mut percent = base_scan::find(column, 0, b'%');
    let mut comma = base_scan::find(column, 0, b',');
    while let Some(field) = read_attributes::next_field(column, at).unwrap_or(None) {
        let end = field.value.end;
        n += attribute_len(
            base_scan::text(column, field.tag),
            base_scan::text(column, field.value),
            (end <= percent) & (end <= comma),
        );
        percent = base_scan::find_on(column, percent, end, b'%');
        comma = base_scan::find_on(column, comma, end, b',');
        at = field.next;
    }
    n
}

// How long the first four sections are on the sheet.
fn texts_len(line: &[u8], bounds: Bounds) -> usize
    requires { (bounds ≡ ends line.now) × (length line.now ≤ most_line) }
    ensures { (result ≡ texts_length (unfolded line.now)) × (result ≤ 16 + 4 * length line.now) }
{
    let name_text = read_columns::text_in(line, bounds, Column::ReferenceSequenceName);
    let name = percent_decode::decoded_len(name_text);
    let source_text = read_columns::text_in(line, bounds, Column::Source);
    let source = percent_decode::decoded_len(source_text);
    let ty_text = read_columns::text_in(line, bounds, Column::Ty);
    let ty = percent_decode::decoded_len(ty_text);
    let score = super::texts::score(read_columns::text_in(line, bounds, Column::Score));
    16 + name + source + ty + score.len()
}

// The numbers of a record that was read.
pub(crate) fn numbers_in(read: Record) -> Numbers
    ensures { result ≡ numbers_in read }
{
    let strand = read.strand;
    let phase = read.phase;
    Numbers {
        start: read.start,
        end: read.end,
        strand,
        phase,
    }
}

// How long the sheet of a line is whose bounds these are.
fn sheet_len(line: &[u8], bounds: Bounds) -> usize
    requires { (bounds ≡ ends line.now) × (length line.now ≤ most_line)
        × (stuck (attributes (walk (column_text column.Attributes line.now))) ≡ false) }
    ensures { result ≡ length (sheet_of (unfolded line.now)) }
{
    let rest = read_columns::text_in(line, bounds, Column::Attributes);
    texts_len(line, bounds) + 4 + attributes_len(rest)
}

// The line admitted, and its sheet measured: its numbers, its bounds and the length of its sheet. Refusals as those of `judge`.
pub fn survey(line: &[u8]) -> Result<(Numbers, Bounds, usize), Refusal>
    ensures { result ≡ surveyed line.now }
{
    let (numbers, bounds) = super::admitting::admit(line)?;
    Ok((numbers, bounds, sheet_len(line, bounds)))
}

// The numbers of a line and the length of its sheet, without a buffer. Refusals, in order: 24, over 4,194,304 bytes; 1; 2 (start, then
// end); 17; 3; 4; 5.
pub fn judge(line: &[u8]) -> Result<(Numbers, usize), Refusal>
    ensures { result ≡ judged line.now }
{
    let (numbers, _, length) = survey(line)?;
    Ok((numbers, length))
}
