// A decoded text, put into any sink.
ghost use Rattle.std.specs.Prelude.{◌≡◌};
ghost use Rattle.percent_coding.specs.Percent.{decoded};

use base_sink::Sink;

// Puts the decoded text into a sink. A step is one byte, three or a run, which no iterator makes. Runs without a percent sign go as they
// are. The next percent sign is sought only where a run begins: a search before each of many escapes that stand side by side would take
// longer than decoding them.
pub fn put_decoded<S: Sink>(s: &[u8], sink: &mut S)
    ensures { S.took (decoded s.now) sink.old sink.new }
{
    let mut i = 0;
    while i < s.len() {
        if s[i] == b'%' {
            let unit = super::decode_at(s, i);
            sink.byte(unit.byte);
            i = unit.next;
        } else {
            let sign = super::next_sign(s, i + 1);
            sink.text(base_scan::part(s, i, sign));
            i = sign;
        }
    }
}
