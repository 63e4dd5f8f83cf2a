// The words of a value.
ghost use Rattle.std.specs.Prelude.{◌≡◌, Ok, Err};
ghost use Rattle.read_directives.specs.Then.{word_then};

use base_refusals::Refusal;
use base_scan::Place;

// The next word from `at` on, or the refusal where none is left.
#[tactic(auto, unfolding(crate::specs::Then::word_then))]
pub(crate) fn word(text: &[u8], at: usize, missing: Refusal) -> Result<Place, Refusal>
    ensures { result ≡ word_then (Err missing) text.now at (λ word. Ok word) }
{
    let word = base_words::next_word(text, at);
    if word.start == text.len() {
        Err(missing)
    } else {
        Ok(word)
    }
}
