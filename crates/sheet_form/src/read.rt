// Counts and sections at a cursor. A cursor beyond the sheet is malformed, as a cut-off count is.
ghost use Rattle.std.specs.Prelude.{◌≡◌};
ghost use Rattle.sheet_form.specs.Cursor.{count_at, section_at};

use base_scan::Place;

// The count at a cursor, four bytes, low byte first, and the cursor behind it. None where it is malformed.
#[tactic(auto, unfolding(crate::specs::Cursor::count_at))]
pub fn count_at(sheet: &[u8], at: usize) -> Option<(usize, usize)>
    ensures { result ≡ count_at sheet.now at }
{
    let bytes = sheet.get(at..)?.first_chunk::<4>()?;
    Some((u32::from_le_bytes(*bytes) as usize, at + 4))
}

// Where the section at a cursor stands: a count that is no larger than the rest, and so many bytes; their end is the cursor behind it.
// None where it is malformed.
#[tactic(auto, unfolding(crate::specs::Cursor::count_at, crate::specs::Cursor::section_at))]
pub fn section_at(sheet: &[u8], at: usize) -> Option<Place>
    ensures { result ≡ section_at sheet.now at }
{
    let (count, start) = count_at(sheet, at)?;
    if sheet.len() - start < count {
        return None;
    }
    Some(Place {
        start,
        end: start + count,
    })
}
