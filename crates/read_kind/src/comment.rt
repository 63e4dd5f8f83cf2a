// A comment's text.
ghost use Rattle.std.specs.Prelude.{◌≡◌};
ghost use Rattle.read_kind.specs.Kind.{comment_of};

use super::kind::Kind;
use base_scan::Place;

// The text of a comment, from byte 1 to the line's end, or none where the line is no comment.
#[tactic(auto, unfolding(crate::specs::Kind::comment_of))]
pub fn comment_of(line: &[u8]) -> Option<Place>
    ensures { result ≡ comment_of line.now }
{
    match super::kind::kind_of(line) {
        Kind::Comment => Some(Place {
            start: 1,
            end: line.len(),
        }),
        Kind::Directive | Kind::Record => None,
    }
}
