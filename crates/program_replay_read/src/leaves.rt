// Cases of finding, numbers and percent coding.
use percent_sets::Set;
use program_replay_words::{case, show};

// The largest buffer that a case lends.
const ROOM: usize = 512;

// f TEXT AT BYTE
pub fn find(line: &[u8], text: &[u8]) {
    let from = case::number(line, 2) as usize;
    let b = (case::number(line, 3) % 256) as u8;
    show::number(base_scan::find(text, from, b) as u64)
}

// w TEXT AT: where the next word starts and ends
pub fn word(line: &[u8], text: &[u8]) {
    let from = case::number(line, 2) as usize;
    let place = base_words::next_word(text, from);
    show::number(place.start as u64);
    show::number(place.end as u64)
}

fn read(answer: Option<u64>) {
    match answer {
        Some(n) => show::number(n),
        None => show::word(b"!"),
    }
}

// p TEXT: a position of column 4 or 5
pub fn position(text: &[u8]) {
    read(read_numbers::position(text))
}

// r TEXT: a position of a region
pub fn region_position(text: &[u8]) {
    read(read_numbers::region_position(text))
}

// v TEXT: a part of a version
pub fn version_part(text: &[u8]) {
    read(read_numbers::version_part(text))
}

// n NUMBER ROOM
pub fn decimal(line: &[u8]) {
    let mut room = [170u8; ROOM];
    let size = case::number(line, 2) as usize;
    let answer = write_decimals::write_decimal(case::number(line, 1), case::front(&mut room, size));
    show::written(answer, base_scan::part(&room, 0, size))
}

// d TEXT ROOM
pub fn decode(line: &[u8], text: &[u8]) {
    let mut room = [170u8; ROOM];
    let size = case::number(line, 2) as usize;
    let answer = percent_decode::decode(text, case::front(&mut room, size));
    show::written(answer, base_scan::part(&room, 0, size))
}

// The set that a number says: 2, columns 2 and 3; 3, tags and values; else column 1.
fn set(n: u64) -> Set {
    match n {
        2 => Set::Column,
        3 => Set::Attribute,
        _ => Set::Name,
    }
}

// e TEXT ROOM SET
pub fn encode(line: &[u8], text: &[u8]) {
    let mut room = [170u8; ROOM];
    let size = case::number(line, 2) as usize;
    let answer = percent_encode::encode(
        set(case::number(line, 3)),
        text,
        case::front(&mut room, size),
    );
    show::written(answer, base_scan::part(&room, 0, size))
}
