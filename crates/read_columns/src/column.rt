// `Fields`: each raw column as a place in the line.
ghost use Rattle.std.specs.Prelude.{◌≡◌, ◌-◌, ◌≤◌, length};
ghost use Rattle.base_scan.specs.Part.{text_at};
ghost use Rattle.read_columns.specs.Columns.{place_in, column_at};

use super::bounds::Bounds;
use base_refusals::Refusal;
use base_scan::Place;

#[derive(Clone, Copy, Debug, PartialEq, Eq)]
pub enum Column {
    ReferenceSequenceName,
    Source,
    Ty,
    Start,
    End,
    Score,
    Strand,
    Phase,
    // The rest of the line, further tabs included.
    Attributes,
}

// Between two tabs: from one past the tab before to the column's own tab.
fn between(from: usize, past: usize) -> Place
    ensures { (result.start ≡ from) × (result.end ≡ past - 1) }
{
    if past == 0 {
        return Place {
            start: from,
            end: 0,
        };
    }
    Place {
        start: from,
        end: past - 1,
    }
}

// Where a column stands by these bounds, in a line of so many bytes. Of bounds that are no line's own it is a place all the same.
pub fn place_in(column: Column, bounds: Bounds, len: usize) -> Place
    ensures { result ≡ place_in column bounds len }
{
    let b = bounds;
    match column {
        Column::ReferenceSequenceName => between(0, b.reference_sequence_name_end),
        Column::Source => between(b.reference_sequence_name_end, b.source_end),
        Column::Ty => between(b.source_end, b.type_end),
        Column::Start => between(b.type_end, b.start_end),
        Column::End => between(b.start_end, b.end_end),
        Column::Score => between(b.end_end, b.score_end),
        Column::Strand => between(b.score_end, b.strand_end),
        Column::Phase => between(b.strand_end, b.phase_end),
        Column::Attributes => Place {
            start: b.phase_end,
            end: len,
        },
    }
}

// The text of a column by these bounds.
pub fn text_in<'a>(line: &'a [u8], bounds: Bounds, column: Column) -> &'a [u8]
    ensures text { result.now ≡ text_at (place_in column bounds (length line.now)) line.now }
    ensures short { length result.now ≤ length line.now }
{
    base_scan::text(line, place_in(column, bounds, line.len()))
}

// A raw column as a place in the line; refused, by number 1, where these are not the line's own bounds.
pub fn column_at(line: &[u8], bounds: Bounds, column: Column) -> Result<Place, Refusal>
    ensures { result ≡ column_at column line.now bounds }
{
    if super::bounds::own(line, bounds) {
        Ok(place_in(column, bounds, line.len()))
    } else {
        Err(Refusal::Columns)
    }
}
