// Hands out the lines of a text one by one, from a cursor on, without their line ends; blank lines are skipped.
// In the Rust: `read_line` in `io/reader.rs`.
//
// A cursor by value goes in, and the next line comes out as a place, with the next cursor. Nothing is copied: `base_scan::text` reads a
// place.
//
// Proved: a step is its definition, and steps from the start hand out exactly the lines of the text, in order, and then are done.
// Assumes nothing.
#![tactic(auto)]

ghost use Rattle.std.specs.Prelude.{◌≡◌, ◌≤◌, ◌<◌, length};
ghost use Rattle.read_lines.specs.Blank.{blank_at, past_blank};
ghost use Rattle.read_lines.specs.Step.{fresh, line_end, next_line};

use base_scan::Place;

#[derive(Clone, Copy)]
pub struct Cursor {
    pub at: usize,
}

impl Cursor {
    // The start of a text.
    pub fn new() -> Self
        ensures { result ≡ fresh }
    {
        Cursor { at: 0 }
    }
}

// Whether a byte belongs to a blank line that begins with it: a line feed, or a carriage return with a line feed behind it.
fn blank_at(text: &[u8], at: usize) -> bool
    ensures { result ≡ blank_at text.now at }
{
    match text.get(at) {
        Some(b'\n') => true,
        Some(b'\r') => text.get(at + 1) == Some(&b'\n'),
        _ => false,
    }
}

// The place behind the blank lines that stand at a cursor, where a line begins or the text ends; a cursor beyond the text stays. Of a line
// that is not blank no more than two bytes are looked at. A test of two bytes stops it, so it is no `position`.
pub fn past_blank(text: &[u8], from: usize) -> usize
    ensures { result ≡ past_blank text.now from }
{
    let mut at = from;
    while blank_at(text, at) {
        at += 1;
    }
    at
}

// Where a line ends whose line feed is at `feed`.
fn chomp(text: &[u8], feed: usize) -> usize
    requires { feed ≤ length text.now }
    ensures { result ≡ line_end text.now feed }
{
    match &text[..feed] {
        [.., b'\r'] => feed - 1,
        _ => feed,
    }
}

// The next line from the cursor on, without its ending, and the cursor behind it; none where no line is left. A line feed ends a line, and
// one carriage return just before it is removed; a last line without a line feed keeps a carriage return. Blank lines, which have no byte
// then, are skipped, however many there are. A cursor beyond the text counts as at its end; one between a carriage return and its line feed
// stands before a blank line.
pub fn next_line(text: &[u8], cursor: Cursor) -> Option<(Place, Cursor)>
    ensures { result ≡ next_line text.now cursor }
{
    let at = past_blank(text, cursor.at);
    if text.len() <= at {
        return None;
    }
    let feed = base_scan::find(text, at, b'\n');
    if feed == text.len() {
        let place = Place {
            start: at,
            end: feed,
        };
        return Some((place, Cursor { at: feed }));
    }
    let end = chomp(text, feed);
    Some((Place { start: at, end }, Cursor { at: feed + 1 }))
}
