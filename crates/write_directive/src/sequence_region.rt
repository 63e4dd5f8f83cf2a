// The value of `sequence-region`: name, start, end, with a space between them.
ghost use Rattle.std.specs.Prelude.{◌≡◌};
ghost use Rattle.base_buffer.specs.Answer.{refusal_of, unless};
ghost use Rattle.write_directive.specs.Region.{region_reasons, region_tail};

use super::judge::Faults;
use base_refusals::Refusal;
use base_sink::Sink;

pub(crate) fn region_refusal(key: &[u8], name: &[u8], start: u64, end: u64) -> Result<(), Refusal>
    ensures { result ≡ unless (refusal_of (region_reasons key.now name.now start end)) tt }
{
    let own = base_words::is_same(key, b"sequence-region");
    let faults = Faults {
        long: write_texts::is_long(name),
        foreign: !own,
        unfit: write_texts::is_unfit(name),
        zero: (start == 0) | (end == 0),
        ..Faults::default()
    };
    super::judge::refusal(key, faults)
}

// The value and the space before it.
pub(crate) fn put_region<S: Sink>(name: &[u8], start: u64, end: u64, sink: &mut S)
    ensures { S.took (region_tail name.now start end) sink.old sink.new }
{
    super::pieces::put_word(name, sink);
    super::pieces::put_number(start, sink);
    super::pieces::put_number(end, sink);
}
