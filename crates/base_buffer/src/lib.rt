// Lays a text over an output buffer that the caller lends, and says what a writer answers of one.
// In the Rust: `io::Write`.
//
// A writer finds the first reason to refuse, makes sure that its text fits, by its length or by a bound on it, and only then lays it: a
// refused call changes no byte. Laying takes any place: what would stand past the buffer's end is left out, so no caller has to show that
// there is room. Proved: the contents of the whole buffer, also behind the text. Assumes nothing.
#![tactic(auto)]

ghost use Rattle.std.specs.Prelude.{◌≡◌, [], ◌∷◌};
ghost use Rattle.base_buffer.specs.declared.WriteError.TheVariants.{Refused};
ghost use Rattle.base_buffer.specs.Answer.{error_number};
ghost use Rattle.base_buffer.specs.Laid.{Lays};

use base_refusals::Refusal;

// The longest text that is encoded or written, and the longest sheet. A longer one is refused by 24.
pub const MOST_TEXT: usize = 1048576;

// The longest line that is unfolded. A longer one is refused by 24.
pub const MOST_LINE: usize = 4194304;

// Why a writer wrote nothing. A writer answers `Ok` with the length of the text that stands at the buffer's start.
#[derive(Clone, Copy, Debug, PartialEq, Eq)]
pub enum WriteError {
    // The first reason that holds (RULES 10).
    Refused(Refusal),
    // Refusal 22: the text is longer than the buffer, and has so many bytes.
    NoRoom(usize),
}

impl WriteError {
    // The number of the reason (RULES 10).
    pub fn number(self) -> u32
        ensures { result ≡ error_number self }
    {
        match self {
            WriteError::Refused(reason) => reason.number(),
            WriteError::NoRoom(_) => 22,
        }
    }
}

impl From<Refusal> for WriteError {
    ghost from_gives = { λ refusal error. error ≡ Refused refusal };

    fn from(refusal: Refusal) -> WriteError {
        WriteError::Refused(refusal)
    }
}

// Lays one byte.
pub fn lay_byte(b: u8, out: &mut [u8], at: usize) -> usize
    ensures { Lays (b ∷ []) out.old at out.new result }
{
    if at < out.len() {
        out[at] = b;
        return at + 1;
    }
    out.len()
}

// Lays a text: a copy of as many bytes as there is room for. The library's own copy of slices would call `memmove` of the C library, and what
// is made for C is not to need that name from outside.
pub fn lay(s: &[u8], out: &mut [u8], at: usize) -> usize
    ensures { Lays s.now out.old at out.new result }
{
    let end = out.len();
    if end <= at {
        return end;
    }
    let n = base_numbers::least(s.len(), end - at);
    for i in 0..n {
        out[at + i] = s[i];
    }
    at + n
}
