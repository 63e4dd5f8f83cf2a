// Answers as text on standard output, each word with a space behind it.
use base_buffer::WriteError;
use base_scan::Place;

pub fn word(s: &[u8]) {
    io::write_all(1, s);
    io::write_all(1, b" ");
}

// Nothing is left.
pub fn done() {
    word(b".")
}

pub fn number(n: u64) {
    io::print_decimal(1, n);
    io::write_all(1, b" ");
}

// A text in small hex digits; the empty one is `-`.
pub fn hex(s: &[u8]) {
    if s.is_empty() {
        io::write_all(1, b"-");
    }
    for &b in s {
        io::print_hex(1, b as u64, 2);
    }
    io::write_all(1, b" ");
}

// The text that stands at a place, in hex.
pub fn text(s: &[u8], place: Place) {
    hex(base_scan::text(s, place))
}

// A refusal: `!` and its number.
pub fn refused(n: u32) {
    word(b"!");
    number(n as u64)
}

// Why a writer wrote nothing: `!` and the number, and for 22 the length needed.
pub fn unwritten(error: WriteError) {
    match error {
        WriteError::Refused(reason) => refused(reason.number()),
        WriteError::NoRoom(n) => {
            word(b"! 22");
            number(n as u64)
        }
    }
}

// What a writer answered, `=` and the length or why it wrote nothing; and the whole buffer.
pub fn written(answer: Result<usize, WriteError>, room: &[u8]) {
    match answer {
        Ok(n) => {
            word(b"=");
            number(n as u64)
        }
        Err(error) => unwritten(error),
    }
    hex(room)
}
