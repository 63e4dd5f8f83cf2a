// An encoded text, put into any sink.
ghost use Rattle.std.specs.Prelude.{◌≡◌, ◌<◌};
ghost use Rattle.percent_coding.specs.Percent.{escape, piece, encoded};
ghost use Rattle.percent_sets.specs.Sets.{escapes, classes};

use base_sink::{Count, Nowhere, Page, Sink};
use percent_sets::Set;

fn put_escape<S: Sink>(b: u8, sink: &mut S)
    ensures { S.took (escape b) sink.old sink.new }
{
    sink.byte(b'%');
    sink.byte(super::hex_digit(b / 16));
    sink.byte(super::hex_digit(b % 16));
}

// One byte, escaped where the table says so.
fn put_piece<S: Sink>(table: &[u8; 256], set: Set, b: u8, sink: &mut S)
    requires { table.now ≡ classes }
    ensures { S.took (piece (escapes set) b) sink.old sink.new }
{
    if percent_sets::escaped_by(table, set, b) {
        put_escape(b, sink);
    } else {
        sink.byte(b);
    }
}

// Byte by byte: for a text of which something may be escaped.
fn put_pieces<S: Sink>(set: Set, s: &[u8], sink: &mut S)
    ensures { S.took (encoded (escapes set) s.now) sink.old sink.new }
{
    let table = percent_sets::table();
    for b in s {
        put_piece(table, set, *b, sink);
    }
}

// Puts the encoded text into a sink: as it is, where nothing is escaped.
pub fn put_encoded<S: Sink>(set: Set, s: &[u8], sink: &mut S)
    ensures { S.took (encoded (escapes set) s.now) sink.old sink.new }
{
    if super::plain::stays(set, s) {
        sink.text(s);
    } else {
        put_pieces(set, s, sink);
    }
}

// A sink that takes a text encoded by a set.
pub trait Coded: Sink {
    fn encoded(&mut self, set: Set, s: &[u8])
        ensures { Self.took (encoded (escapes set) s.now) self.old self.new };
}

impl<'a> Coded for Page<'a> {
    fn encoded(&mut self, set: Set, s: &[u8]) {
        put_encoded(set, s, self);
    }
}

impl Coded for Count {
    fn encoded(&mut self, set: Set, s: &[u8]) {
        self.bytes = self.bytes.saturating_add(super::encoded_len(set, s));
    }
}

impl Coded for Nowhere {
    fn encoded(&mut self, _set: Set, _s: &[u8]) {}
}
