// Column 6: the token stays text.
ghost use Rattle.std.specs.Prelude.{◌≡◌};
ghost use Rattle.base_scan.specs.Part.{text_at};
ghost use Rattle.read_fields.specs.Fields.{score_of, score_at};

use base_refusals::Refusal;
use base_scan::Place;
use read_columns::{Bounds, Column};

// The score that stands at a place: none for `.`, else the place of the token, else 17.
#[tactic(auto, unfolding(crate::specs::Fields::score_of))]
pub(crate) fn score_of(line: &[u8], place: Place) -> Result<Option<Place>, Refusal>
    ensures { result ≡ score_of (text_at place line.now) place }
{
    let token = base_scan::text(line, place);
    if base_words::is_dot(token) {
        return Ok(None);
    }
    if read_score::is_score(token) {
        Ok(Some(place))
    } else {
        Err(Refusal::Score)
    }
}

// Column 6: where its token, by RULES 4.2, stands in the line; none for the exact byte `.`. Refusals, in order: 1, not the line's own
// bounds; 17, no score token. An empty column is 17: only the exact `.` is missing.
#[tactic(auto, unfolding(crate::specs::Fields::score_at))]
pub fn score_at(line: &[u8], bounds: Bounds) -> Result<Option<Place>, Refusal>
    ensures { result ≡ score_at line.now bounds }
{
    score_of(line, read_columns::column_at(line, bounds, Column::Score)?)
}
