// Hands out the lines of a text that comes in parts, while it comes; blank lines are skipped.
// In the Rust: `read_line` in `io/reader.rs`, over a buffered reader.
//
// A state by value and a hold of 65,536 bytes that the caller lends carry the line that is begun from one call to the next. A line is
// handed out as the hold's first bytes. No loop goes over a line's bytes: `base_scan::find` looks for the line feed, and
// `base_buffer::lay` copies what stands before it. Blank lines are passed before that, by `read_lines::past_blank`.
//
// Proved: each answer and the whole hold are those of the definition, for every state, hold and part; and calls in a row, however the
// text is cut, tell the lines of the whole text in order, each of more than 65,536 bytes as refusal 25. Assumes nothing.
#![tactic(auto)]

mod state;

ghost use Rattle.std.specs.Prelude.{◌≡◌};
ghost use Rattle.read_parts.specs.Calls.{fed, ended, TakesPart, EndsParts};
ghost use Rattle.read_parts.specs.Inner.Accept.{accepts};

use base_refusals::Refusal;
pub use state::{State, Tail};

// The hold's length, and the most bytes of a line that is handed out. A longer one is refused by 25, a hold of another length by 34.
pub const HOLD_LENGTH: usize = 65536;

// What has come of a line.
#[derive(Clone, Copy, Debug, PartialEq, Eq)]
pub enum Came {
    // It has ended: its length, from the hold's start on.
    Line(usize),
    // Refusal 25: it has ended, and has more than 65,536 bytes.
    TooLong,
    // It has not ended. At the text's end: no line was begun.
    NoLine,
}

// What a call answers that is not refused by 34.
#[derive(Clone, Copy, Debug, PartialEq, Eq)]
pub struct Part {
    pub came: Came,
    // The bytes taken: all, where no line has ended.
    pub taken: usize,
    // The state for the next call; where a line has ended it is fresh.
    pub state: State,
}

// 34 where the hold has another length, or the state says that it holds more.
fn accepts(held: usize, room: usize) -> Result<(), Refusal>
    ensures { result ≡ accepts held room }
{
    if (held > HOLD_LENGTH) | (room != HOLD_LENGTH) {
        return Err(Refusal::Hold);
    }
    Ok(())
}

// The line ends.
fn fed(state: State, taken: usize) -> Part
    ensures { result ≡ fed state taken }
{
    let came = if state::is_long(state) {
        Came::TooLong
    } else {
        Came::Line(state.held)
    };
    Part {
        came,
        taken,
        state: State::new(),
    }
}

// The text ends, and with it a line that has a byte.
fn ended(state: State) -> Part
    ensures { result ≡ ended state }
{
    if state::is_blank(state) {
        return Part {
            came: Came::NoLine,
            taken: 0,
            state: State::new(),
        };
    }
    fed(state, 0)
}

// Skips blank lines, however many there are; then takes the part up to its next line feed, that included, and hands out the line that it
// ends, or takes all of it, where it has none. One carriage return just before the line feed is removed, in whichever part it came.
// Refusals, in order: 34, a hold of another length than 65,536 or a state that says it holds more: nothing was taken, and state and hold
// are what they were; 25, a line of more than 65,536 bytes, when its line feed has come.
pub fn take_part(state: State, hold: &mut [u8], part: &[u8]) -> Result<Part, Refusal>
    ensures { TakesPart state part.now hold.old hold.new result }
{
    accepts(state.held, hold.len())?;
    let from = state::skipped(state, part);
    let begun = state::behind_blank(state, from);
    let rest = &part[from..];
    let feed = base_scan::find(rest, 0, b'\n');
    let next = state::grow(begun, hold, &rest[..feed]);
    if feed == rest.len() {
        return Ok(Part {
            came: Came::NoLine,
            taken: from + feed,
            state: next,
        });
    }
    Ok(fed(next, from + feed + 1))
}

// Ends the text, and with it a line that has a byte; it keeps a carriage return. Refusals, in order: 34; 25.
pub fn end_parts(last: State, hold: &mut [u8]) -> Result<Part, Refusal>
    ensures { EndsParts last hold.old hold.new result }
{
    accepts(last.held, hold.len())?;
    let settled = state::settle(last, hold);
    Ok(ended(settled))
}
