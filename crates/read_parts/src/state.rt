// The state between two calls: what is held of the line that is begun and not ended.
ghost use Rattle.std.specs.Prelude.{◌-◌, ◌≡◌, ◌∷◌};
ghost use Rattle.base_lists.specs.Bytes.{cr};
ghost use Rattle.read_lines.specs.Blank.{blank_run};
ghost use Rattle.read_parts.specs.State.{fresh, is_long, is_blank, skipped, behind_blank};
ghost use Rattle.read_parts.specs.Inner.Store.{Ready, Stores, Grows, Settles};

// What is known of the line's end.
#[derive(Clone, Copy, Debug, PartialEq, Eq)]
pub enum Tail {
    // All that was taken of the line stands in the hold, and stays.
    Fits,
    // Behind what is held came one carriage return, which the hold does not have: whether it stays is not known yet.
    Waits,
    // More than 65,536 bytes stay, and the hold has the first of them.
    Long,
}

#[derive(Clone, Copy, Debug, PartialEq, Eq)]
pub struct State {
    // So many of the hold's first bytes belong to the line. The hold is lent by C, so it is no part of the state.
    pub held: usize,
    pub tail: Tail,
}

impl State {
    // No line is begun.
    pub fn new() -> Self
        ensures { result ≡ fresh }
    {
        State {
            held: 0,
            tail: Tail::Fits,
        }
    }
}

pub(crate) fn is_long(state: State) -> bool
    ensures { result ≡ is_long state.tail }
{
    state.tail == Tail::Long
}

// So far the line is blank: no byte of it is sure to stay.
pub(crate) fn is_blank(state: State) -> bool
    ensures { result ≡ is_blank state }
{
    (state.held == 0) & !is_long(state)
}

// So many bytes of a part belong to blank lines, behind a carriage return that waits: none, where no line feed comes first.
fn skipped_behind_return(part: &[u8]) -> usize
    ensures { result ≡ blank_run (cr ∷ part.now) - 1 }
{
    if part.starts_with(b"\n") {
        read_lines::past_blank(part, 0)
    } else {
        0
    }
}

// So many bytes of a part belong to blank lines.
pub(crate) fn skipped(state: State, part: &[u8]) -> usize
    ensures { result ≡ skipped state part.now }
{
    if state.held != 0 {
        return 0;
    }
    match state.tail {
        Tail::Fits => read_lines::past_blank(part, 0),
        Tail::Waits => skipped_behind_return(part),
        Tail::Long => 0,
    }
}

// The state behind so many bytes of blank lines: a carriage return that waited was theirs.
pub(crate) fn behind_blank(state: State, count: usize) -> State
    ensures { result ≡ behind_blank state count }
{
    if count == 0 {
        return state;
    }
    State::new()
}

// Stores bytes that stay, as many as there is room for; where all fit, the line goes on by `tail`.
fn store(state: State, hold: &mut [u8], bytes: &[u8], tail: Tail) -> State
    requires { Ready state hold.old }
    ensures { Stores state bytes.now tail hold.old hold.new result }
{
    if is_long(state) {
        return state;
    }
    let held = state.held;
    let room = hold.len() - held;
    let end = base_buffer::lay(bytes, hold, held);
    if room < bytes.len() {
        return State {
            held: end,
            tail: Tail::Long,
        };
    }
    State { held: end, tail }
}

// A carriage return that waits, stays.
pub(crate) fn settle(state: State, hold: &mut [u8]) -> State
    requires { Ready state hold.old }
    ensures { Settles state hold.old hold.new result }
{
    match state.tail {
        Tail::Waits => store(state, hold, b"\r", Tail::Fits),
        Tail::Fits | Tail::Long => state,
    }
}

// More bytes of the line: all are sure to stay but a carriage return at their end.
pub(crate) fn grow(state: State, hold: &mut [u8], bytes: &[u8]) -> State
    requires { Ready state hold.old }
    ensures { Grows state bytes.now hold.old hold.new result }
{
    let Some((&last, before)) = bytes.split_last() else {
        return state;
    };
    let settled = settle(state, hold);
    if last == b'\r' {
        store(settled, hold, before, Tail::Waits)
    } else {
        store(settled, hold, bytes, Tail::Fits)
    }
}
