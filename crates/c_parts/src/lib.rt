// Gives C the lines of a text that comes in parts.
//
// Proved: each struct is the library's definition of the answer, by one definition for the `Result`, which gives each case its
// numbers (RULES 10, 16), and the hold is as the library leaves it. Every function takes any bytes and numbers. Assumes nothing.
#![tactic(auto)]

ghost use Rattle.std.specs.Prelude.{◌≡◌};
ghost use Rattle.c_parts.specs.Part.{tail_of_c, state_of_c, c_tail, c_state, c_came, c_part, CTakesPart, CEndsParts};

use base_refusals::Refusal;
use read_parts::{Came, Part, State, Tail};

#[repr(C)]
#[derive(Clone, Copy)]
pub struct Gff3State {
    pub held: usize,
    pub tail: u64,
}

#[repr(C)]
#[derive(Clone, Copy)]
pub struct Gff3Part {
    pub refused: u64,
    pub has_line: u64,
    pub length: usize,
    pub taken: usize,
    pub state: Gff3State,
}

// Tails by their numbers; another number counts as 2, so that no line is handed out by it.
fn tail_in(tail: u64) -> Tail
    ensures { result ≡ tail_of_c tail }
{
    match tail {
        0 => Tail::Fits,
        1 => Tail::Waits,
        _ => Tail::Long,
    }
}

// The library's state of C's.
fn state_in(state: Gff3State) -> State
    ensures { result ≡ state_of_c state }
{
    State {
        held: state.held,
        tail: tail_in(state.tail),
    }
}

fn tail_of(tail: Tail) -> u64
    ensures { result ≡ c_tail tail }
{
    match tail {
        Tail::Fits => 0,
        Tail::Waits => 1,
        Tail::Long => 2,
    }
}

fn state_of(state: State) -> Gff3State
    ensures { result ≡ c_state state }
{
    Gff3State {
        held: state.held,
        tail: tail_of(state.tail),
    }
}

fn came_of(part: Part) -> Gff3Part
    ensures { result ≡ c_came part }
{
    let none = Gff3Part {
        refused: 0,
        has_line: 0,
        length: 0,
        taken: part.taken,
        state: state_of(part.state),
    };
    match part.came {
        Came::Line(length) => Gff3Part {
            has_line: 1,
            length,
            ..none
        },
        Came::TooLong => Gff3Part {
            refused: Refusal::LineTooLong.number() as u64,
            ..none
        },
        Came::NoLine => none,
    }
}

// An answer; `state` is the one that was handed in.
fn part_of(answer: Result<Part, Refusal>, state: Gff3State) -> Gff3Part
    ensures { result ≡ c_part state answer }
{
    match answer {
        Ok(part) => came_of(part),
        Err(refusal) => Gff3Part {
            refused: refusal.number() as u64,
            has_line: 0,
            length: 0,
            taken: 0,
            state,
        },
    }
}

// Takes a part up to its first line feed, that included, or all of it. Refusals, in order: 34, and the state is the one handed in; 25.
#[unsafe(no_mangle)]
pub extern "C" fn gff3_take_part(state: Gff3State, hold: &mut [u8], part: &[u8]) -> Gff3Part
    ensures { CTakesPart state part.now hold.old hold.new result }
{
    part_of(read_parts::take_part(state_in(state), hold, part), state)
}

// Ends the text. Refusals, in order: 34, and the state is the one handed in; 25.
#[unsafe(no_mangle)]
pub extern "C" fn gff3_end_parts(state: Gff3State, hold: &mut [u8]) -> Gff3Part
    ensures { CEndsParts state hold.old hold.new result }
{
    part_of(read_parts::end_parts(state_in(state), hold), state)
}
