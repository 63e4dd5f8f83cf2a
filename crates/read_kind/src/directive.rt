// `Directive`: the key and the value of a directive line.
ghost use Rattle.std.specs.Prelude.{◌≡◌, ◌≤◌, length};
ghost use Rattle.read_kind.specs.Kind.{value_behind, directive_of};

use super::kind::Kind;
use base_scan::Place;

#[derive(Clone, Copy)]
pub struct KeyValue {
    pub key: Place,
    // None where no white space follows the key.
    pub value: Option<Place>,
}

// The value behind the white space at k, or none where k is the line's end.
fn value(line: &[u8], k: usize) -> Option<Place>
    requires { k ≤ length line.now }
    ensures { result ≡ value_behind line.now k }
{
    if k == line.len() {
        None
    } else {
        Some(Place {
            start: k + 1,
            end: line.len(),
        })
    }
}

// The key of a directive runs from byte 2 to the first ASCII white space; the value is what follows that byte. `##` has an empty key
// and no value, and `## ` an empty key and an empty value. None where the line is no directive.
#[tactic(auto, unfolding(crate::specs::Kind::directive_of))]
pub fn directive_of(line: &[u8]) -> Option<KeyValue>
    ensures { result ≡ directive_of line.now }
{
    match super::kind::kind_of(line) {
        Kind::Directive => {
            let k = base_words::find_space(line, 2);
            Some(KeyValue {
                key: Place { start: 2, end: k },
                value: value(line, k),
            })
        }
        Kind::Comment | Kind::Record => None,
    }
}
