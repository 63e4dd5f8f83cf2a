// The cases of unfolding and writing that program_replay replays.
//
// Each public function makes a call of the library, and shows the answer. Above it stands its case, a letter and words. Proved: each is
// safe and ends.
#![tactic(auto)]

use base_buffer::WriteError;
use program_replay_words::{case, show};
use read_judge::Numbers;
use read_version::GffVersion;
use write_directive::Value;

// The largest buffer that a case lends.
const ROOM: usize = 512;

fn numbers(n: Numbers) {
    show::number(n.start);
    show::number(n.end);
    show::number(read_tokens::strand_number(n.strand) as u64);
    show::number(read_tokens::phase_number(n.phase) as u64)
}

// J LINE: the sheet's length, and start, end, strand and phase
pub fn judge(text: &[u8]) {
    match read_judge::judge(text) {
        Ok((n, length)) => {
            show::number(length as u64);
            numbers(n)
        }
        Err(refusal) => show::refused(refusal.number()),
    }
}

fn unfolded(answer: Result<(Numbers, usize), WriteError>) {
    match answer {
        Ok((n, length)) => {
            show::word(b"=");
            show::number(length as u64);
            numbers(n)
        }
        Err(error) => show::unwritten(error),
    }
}

// U LINE ROOM: the same, and the whole buffer
pub fn unfold_line(line: &[u8], text: &[u8]) {
    let mut room = [170u8; ROOM];
    let size = case::number(line, 2) as usize;
    unfolded(read_record::unfold(text, case::front(&mut room, size)));
    show::hex(base_scan::part(&room, 0, size))
}

// c TEXT ROOM
pub fn comment(line: &[u8], text: &[u8]) {
    let mut room = [170u8; ROOM];
    let size = case::number(line, 2) as usize;
    let answer = write_comment::write_comment(text, case::front(&mut room, size));
    show::written(answer, base_scan::part(&room, 0, size))
}

fn short(n: u64) -> u32 {
    (n % 4294967296) as u32
}

// A part of a version, where it is there.
fn part(there: u64, n: u64) -> Option<u32> {
    if there == 0 { None } else { Some(short(n)) }
}

// The value that words 5 to 10 say: its kind, start or major, end, and whether there is a minor, the minor, and so for the patch.
fn value(line: &[u8]) -> Value {
    match case::number(line, 5) {
        1 => Value::Text,
        2 => Value::Version(GffVersion {
            major: short(case::number(line, 6)),
            minor: part(case::number(line, 7), case::number(line, 8)),
            patch: part(case::number(line, 9), case::number(line, 10)),
        }),
        3 => Value::Region(case::number(line, 6), case::number(line, 7)),
        4 => Value::Build,
        _ => Value::None,
    }
}

// k KEY FIRST SECOND ROOM and the value
pub fn directive(line: &[u8], key: &[u8], first: &[u8]) {
    let mut second = [0u8; ROOM];
    let n = case::unhex(line, 3, &mut second);
    let mut room = [170u8; ROOM];
    let size = case::number(line, 4) as usize;
    let answer = write_directive::write_directive(
        key,
        value(line),
        first,
        base_scan::part(&second, 0, n),
        case::front(&mut room, size),
    );
    show::written(answer, base_scan::part(&room, 0, size))
}

// s SHEET START END STRAND PHASE ROOM
pub fn record_line(line: &[u8], sheet: &[u8]) {
    let mut room = [170u8; ROOM];
    let size = case::number(line, 6) as usize;
    let answer = write_record::write_record(
        sheet,
        case::number(line, 2),
        case::number(line, 3),
        short(case::number(line, 4)),
        short(case::number(line, 5)),
        case::front(&mut room, size),
    );
    show::written(answer, base_scan::part(&room, 0, size))
}
