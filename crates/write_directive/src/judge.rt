// The reasons to refuse a directive, in their order, before the first byte is written.
ghost use Rattle.std.specs.Prelude.{◌≡◌};
ghost use Rattle.base_buffer.specs.Answer.{refusal_of, unless};
ghost use Rattle.write_directive.specs.Judge.{reasons};

use base_refusals::Refusal;

// What is wrong with a value.
#[derive(Clone, Copy, Default)]
pub(crate) struct Faults {
    // A text is too long.
    pub(crate) long: bool,
    // The key is not the value's own.
    pub(crate) foreign: bool,
    // A text has a line end, or is no word where the value asks for one.
    pub(crate) unfit: bool,
    // A patch without a minor.
    pub(crate) minorless: bool,
    // A start or an end of zero.
    pub(crate) zero: bool,
}

// The first reason to refuse a directive, by its key and the faults of its value.
#[tactic(auto, unfolding(crate::specs::Judge::reasons, base_buffer::specs::Answer::unless))]
pub(crate) fn refusal(key: &[u8], faults: Faults) -> Result<(), Refusal>
    ensures { result ≡ unless (refusal_of (reasons key.now faults)) tt }
{
    if write_texts::is_long(key) | faults.long {
        return Err(Refusal::TooLong);
    }
    if faults.foreign {
        return Err(Refusal::ValueKey);
    }
    if write_texts::is_spaced(key) {
        return Err(Refusal::Key);
    }
    if faults.unfit {
        return Err(Refusal::Text);
    }
    if faults.minorless {
        return Err(Refusal::Patch);
    }
    if faults.zero {
        return Err(Refusal::Position);
    }
    Ok(())
}
