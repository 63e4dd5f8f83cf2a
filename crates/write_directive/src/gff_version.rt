// The value of `gff-version`: major, and minor and patch if they are there, with `.` between them.
ghost use Rattle.std.specs.Prelude.{◌≡◌};
ghost use Rattle.base_buffer.specs.Answer.{refusal_of, unless};
ghost use Rattle.write_directive.specs.Version.{dotted, version_reasons, version_tail};

use super::judge::Faults;
use base_refusals::Refusal;
use base_sink::Sink;
use read_version::GffVersion;

pub(crate) fn version_refusal(key: &[u8], version: GffVersion) -> Result<(), Refusal>
    ensures { result ≡ unless (refusal_of (version_reasons key.now version)) tt }
{
    let own = base_words::is_same(key, b"gff-version");
    let minorless = version.minor.is_none() & version.patch.is_some();
    let faults = Faults {
        foreign: !own,
        minorless,
        ..Faults::default()
    };
    super::judge::refusal(key, faults)
}

fn put_dotted<S: Sink>(part: Option<u32>, sink: &mut S)
    ensures { S.took (dotted part) sink.old sink.new }
{
    if let Some(n) = part {
        sink.byte(b'.');
        write_decimals::put_decimal(n as u64, sink);
    }
}

// The value and the space before it.
pub(crate) fn put_version<S: Sink>(version: GffVersion, sink: &mut S)
    ensures { S.took (version_tail version) sink.old sink.new }
{
    super::pieces::put_number(version.major as u64, sink);
    put_dotted(version.minor, sink);
    put_dotted(version.patch, sink);
}
