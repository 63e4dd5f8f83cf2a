// A strand, as column 7 has it.
ghost use Rattle.std.specs.Prelude.{◌≡◌};
ghost use Rattle.read_tokens.specs.Tokens.{strand_number, strand_of, strand_byte};

use base_refusals::Refusal;

// By number (RULES 4.3).
#[derive(Clone, Copy, Debug, PartialEq, Eq)]
pub enum Strand {
    // `.`
    None = 0,
    // `+`
    Forward = 1,
    // `-`
    Reverse = 2,
    // `?`
    Unknown = 3,
}

// `phase_of` is the like, and their signs are all that they have: one function over a table of them would be longer.
// A strand by its one byte: `.` `+` `-` `?`; else refusal 3.
#[tactic(auto, using(crate::proofs::TokensLaws::strands_told))]
pub fn strand_of(text: &[u8]) -> Result<Strand, Refusal>
    ensures { result ≡ strand_of text.now }
{
    match text {
        [b'.'] => Ok(Strand::None),
        [b'+'] => Ok(Strand::Forward),
        [b'-'] => Ok(Strand::Reverse),
        [b'?'] => Ok(Strand::Unknown),
        _ => Err(Refusal::Strand),
    }
}

// The number of a strand (RULES 4.3).
#[tactic(auto, unfolding(crate::specs::Tokens::strand_number))]
pub fn strand_number(strand: Strand) -> u32
    ensures { result ≡ strand_number strand }
{
    strand as u32
}

// The byte of column 7 for a strand's number: 0 to 3 for `.` `+` `-` `?`; another number counts as 3.
pub fn strand_byte(strand: u32) -> u8
    ensures { result ≡ strand_byte strand }
{
    match strand {
        0 => b'.',
        1 => b'+',
        2 => b'-',
        _ => b'?',
    }
}
