// Cases of a text that comes in parts.
use base_refusals::Refusal;
use program_replay_words::{case, show};
use read_parts::{Came, Part, State};

// As many letters as a case has before its text, `a` to `w` again and again, at the start of a buffer; how many they are.
fn letters(n: usize, out: &mut [u8]) -> usize {
    let end = n.min(out.len());
    for (i, b) in out[..end].iter_mut().enumerate() {
        *b = b'a' + (i % 23) as u8;
    }
    end
}

// The length of the next part: n; for 0, no byte and one in turn.
fn size(n: usize, turn: u32) -> usize {
    if n == 0 { (turn % 2) as usize } else { n }
}

// What an answer tells: a line, a refusal or nothing.
fn tell(answer: Result<Part, Refusal>, hold: &[u8]) {
    match answer {
        Ok(part) => match part.came {
            Came::Line(length) => show::hex(base_scan::part(hold, 0, length)),
            Came::TooLong => show::refused(Refusal::LineTooLong.number()),
            Came::NoLine => (),
        },
        Err(refusal) => show::refused(refusal.number()),
    }
}

// A text in parts of n bytes, by at most 2,048 calls; what a call did not take is offered again. The state behind them, which is a fresh
// one behind 34, which no case gives.
fn feed(text: &[u8], n: usize, hold: &mut [u8]) -> State {
    let mut state = State::new();
    let mut at = 0;
    for turn in 0..2048 {
        if text.len() <= at {
            return state;
        }
        let rest = base_scan::part(text, at, text.len());
        let answer = read_parts::take_part(state, hold, base_scan::part(rest, 0, size(n, turn)));
        tell(answer, hold);
        let (next, taken) = match answer {
            Ok(part) => (part.state, part.taken),
            Err(_) => (State::new(), 0),
        };
        state = next;
        at += taken.min(text.len() - at);
    }
    state
}

// P TEXT LENGTH FRONT: each line, or 25, and a dot; so many letters and the text come in parts of this length
pub fn parts_of(line: &[u8], end: &[u8]) {
    let mut text = [0u8; 66560];
    let front = letters(case::number(line, 3) as usize, &mut text);
    let length = base_buffer::lay(end, &mut text, front);
    let mut hold = [170u8; 65536];
    let state = feed(
        base_scan::part(&text, 0, length),
        case::number(line, 2) as usize,
        &mut hold,
    );
    let last = read_parts::end_parts(state, &mut hold);
    tell(last, &hold);
    show::done()
}
