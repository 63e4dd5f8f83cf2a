// Replays a list of cases, a line a case; what it answers is held to the stored answers of the Rust.
//
// `stdin` has the cases, and `stdout` what they should give, taken from outside (the Rust's answers, and the samples of RULES 14).
// tools/make-vectors makes the list. program_replay_words says what a case is made of; program_replay_read and program_replay_write have
// them, each above the function that answers it.
#![tactic(auto)]

ghost use Rattle.std.specs.Prelude.{◌<◌, length};

use program_replay_read::{
    attributes_cases, columns_cases, directive_cases, leaves, line_cases, parts_cases,
};
use program_replay_words::{case, show};
use read_lines::Cursor;

// A comment of the list is its own answer.
fn comment(line: &[u8]) {
    io::write_all(1, line);
}

// One case, with its letter, which says what is called, and the texts that its first two words stand for.
fn answer<'a>(letter: u8, line: &'a [u8], text: &'a [u8], other: &'a [u8]) {
    match letter {
        b'#' => comment(line),
        b'f' => leaves::find(line, text),
        b'w' => leaves::word(line, text),
        b'p' => leaves::position(text),
        b'r' => leaves::region_position(text),
        b'v' => leaves::version_part(text),
        b'n' => leaves::decimal(line),
        b'd' => leaves::decode(line, text),
        b'e' => leaves::encode(line, text),
        b'L' => line_cases::lines_of(text),
        b'P' => parts_cases::parts_of(line, text),
        b'K' => line_cases::kind(text),
        b'C' => line_cases::comment(text),
        b'D' => line_cases::directive(text),
        b'B' => columns_cases::bounds(text),
        b'R' => columns_cases::record(text, other),
        b'F' => attributes_cases::first(text),
        b'W' => attributes_cases::walk(text),
        b'V' => attributes_cases::values_of(text),
        b'T' => attributes_cases::lookup_of(text, other),
        b'1' => directive_cases::version(text),
        b'2' => directive_cases::region(text),
        b'3' => directive_cases::build(text),
        b'J' => program_replay_write::judge(text),
        b'U' => program_replay_write::unfold_line(line, text),
        b's' => program_replay_write::record_line(line, text),
        b'c' => program_replay_write::comment(line, text),
        b'k' => program_replay_write::directive(line, text, other),
        _ => show::word(b"?"),
    }
}

// One line of the list.
fn turn(line: &[u8])
    requires { 0 < length line.now }
{
    let mut text = [0u8; 512];
    let n = case::unhex(line, 1, &mut text);
    let mut other = [0u8; 512];
    let m = case::unhex(line, 2, &mut other);
    answer(
        line[0],
        line,
        base_scan::part(&text, 0, n),
        base_scan::part(&other, 0, m),
    );
    io::write_all(1, b"\n");
}

// The cases of a block, which holds whole lines, and blank ones that fill it up.
fn replay(cases: &[u8]) {
    let mut cursor = Cursor::new();
    while let Some((place, next)) = read_lines::next_line(cases, cursor) {
        turn(base_scan::text(cases, place));
        cursor = next;
    }
}

// One block of the list, read and replayed; whether there was one.
fn block() -> bool {
    let mut cases = io::large_buffer();
    let n = io::read_full(0, &mut cases);
    replay(&cases[..n]);
    0 < n
}

// At most 1,024 blocks.
fn main() {
    for _ in 0..1024 {
        if !block() {
            return;
        }
    }
}
