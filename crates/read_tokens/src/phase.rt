// A phase, as column 8 has it.
ghost use Rattle.std.specs.Prelude.{◌≡◌};
ghost use Rattle.read_tokens.specs.Tokens.{phase_number, phase_of, phase_byte};

use base_refusals::Refusal;

// By number (RULES 4.4).
#[derive(Clone, Copy, Debug, PartialEq, Eq)]
pub enum Phase {
    Zero = 0,
    One = 1,
    Two = 2,
    // `.`
    None = 3,
}

// A phase by its one byte: `.` (none) `0` `1` `2`; else refusal 4.
#[tactic(auto, using(crate::proofs::TokensLaws::phases_told))]
pub fn phase_of(text: &[u8]) -> Result<Phase, Refusal>
    ensures { result ≡ phase_of text.now }
{
    match text {
        [b'.'] => Ok(Phase::None),
        [b'0'] => Ok(Phase::Zero),
        [b'1'] => Ok(Phase::One),
        [b'2'] => Ok(Phase::Two),
        _ => Err(Refusal::Phase),
    }
}

// The number of a phase (RULES 4.4): 3 for none.
#[tactic(auto, unfolding(crate::specs::Tokens::phase_number))]
pub fn phase_number(phase: Phase) -> u32
    ensures { result ≡ phase_number phase }
{
    phase as u32
}

// The byte of column 8 for a phase's number: 0 to 2 as digits, and `.` for 3; another number counts as 3.
pub fn phase_byte(phase: u32) -> u8
    ensures { result ≡ phase_byte phase }
{
    match phase {
        0 => b'0',
        1 => b'1',
        2 => b'2',
        _ => b'.',
    }
}
