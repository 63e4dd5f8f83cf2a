// A value's words and numbers, each behind a space.
ghost use Rattle.std.specs.Prelude.{◌∷◌};
ghost use Rattle.base_lists.specs.Bytes.{sp};
ghost use Rattle.write_decimals.specs.Decimal.{decimal};

use base_sink::Sink;

pub(crate) fn put_word<S: Sink>(text: &[u8], sink: &mut S)
    ensures { S.took (sp ∷ text.now) sink.old sink.new }
{
    sink.byte(b' ');
    sink.text(text);
}

pub(crate) fn put_number<S: Sink>(n: u64, sink: &mut S)
    ensures { S.took (sp ∷ decimal n) sink.old sink.new }
{
    sink.byte(b' ');
    write_decimals::put_decimal(n, sink);
}
