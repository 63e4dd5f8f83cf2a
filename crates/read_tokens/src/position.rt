// A position, as columns 4 and 5 have it.
ghost use Rattle.std.specs.Prelude.{◌≡◌};
ghost use Rattle.read_tokens.specs.Tokens.{position_of};

use base_refusals::Refusal;

// A position: one or more digits, value 1 to 18446744073709551615; else refusal 2.
#[tactic(auto, unfolding(crate::specs::Tokens::position_of))]
pub fn position_of(text: &[u8]) -> Result<u64, Refusal>
    ensures { result ≡ position_of text.now }
{
    read_numbers::position(text).ok_or(Refusal::Position)
}
