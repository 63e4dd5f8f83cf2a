// The value of `genome-build`: source and name, with a space between them.
ghost use Rattle.std.specs.Prelude.{◌≡◌};
ghost use Rattle.base_buffer.specs.Answer.{refusal_of, unless};
ghost use Rattle.write_directive.specs.GenomeBuild.{build_reasons, build_tail};

use super::judge::Faults;
use base_refusals::Refusal;
use base_sink::Sink;

pub(crate) fn build_refusal(key: &[u8], source: &[u8], name: &[u8]) -> Result<(), Refusal>
    ensures { result ≡ unless (refusal_of (build_reasons key.now source.now name.now)) tt }
{
    let own = base_words::is_same(key, b"genome-build");
    let faults = Faults {
        long: write_texts::is_long(source) | write_texts::is_long(name),
        foreign: !own,
        unfit: write_texts::is_unfit(source) | write_texts::is_unfit(name),
        ..Faults::default()
    };
    super::judge::refusal(key, faults)
}

// The value and the space before it.
pub(crate) fn put_build<S: Sink>(source: &[u8], name: &[u8], sink: &mut S)
    ensures { S.took (build_tail source.now name.now) sink.old sink.new }
{
    super::pieces::put_word(source, sink);
    super::pieces::put_word(name, sink);
}
