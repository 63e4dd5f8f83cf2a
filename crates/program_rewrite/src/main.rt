// Rewrites a GFF3 file: records unfolded and written again, a refused line as `! ` and its number.
//
// The text goes from standard input to standard output, and a line that is no record stays as it was read (RULES 13). More than 65,536
// bytes give `! 24` only. The whole input is read first: where it cannot be read, nothing is written.
//
// Proved: what is answered for a line is `line_rewritten` of it, and a text's answers in a row are `rewritten` of the text. That the
// bytes come from standard input and go to standard output rests on std's `read` and `write_some`, whose clauses count bytes and don't name
// them.
#![tactic(auto)]

mod calls;
mod line;
mod reason;

ghost use Rattle.std.specs.Prelude.{◌≡◌, length};

use read_lines::Cursor;

// One line answered; whether it could be written.
fn turn(rt: &(impl Print + Eprint), line: &[u8], sheet: &mut [u8], out: &mut [u8]) -> bool
    requires { (length sheet.old ≡ 65536) × (length out.old ≡ 65536) }
{
    let answer = line::rewrite_line(line, sheet, out);
    if !calls::write_whole(rt, line::shown(answer, line, out)) {
        return false;
    }
    calls::write_whole(rt, b"\n")
}

// Each line of the text in turn, up to one that cannot be written.
fn rewrite(rt: &(impl Print + Eprint), text: &[u8], sheet: &mut [u8], out: &mut [u8])
    requires { (length sheet.old ≡ 65536) × (length out.old ≡ 65536) }
{
    let mut cursor = Cursor::new();
    while let Some((place, next)) = read_lines::next_line(text, cursor) {
        if !turn(rt, base_scan::text(text, place), sheet, out) {
            return;
        }
        cursor = next;
    }
}

// Whether more follows n bytes that were read: one byte, or none. Nothing is read behind the end, where a terminal would wait again.
fn further<I: std::io::Read>(rt: &impl Eprint, input: &mut I, n: usize) -> Option<usize> {
    if n < 65536 {
        return Some(0);
    }
    let mut byte = [0u8; 1];
    calls::fill(rt, input, &mut byte)
}

fn main(rt: HostRuntime) {
    let mut text: [u8; 65536] = [0; 65536];
    let mut input = rt.stdin();
    let Some(n) = calls::fill(&rt, &mut input, &mut text) else {
        return;
    };
    let Some(more) = further(&rt, &mut input, n) else {
        return;
    };
    if 0 < more {
        calls::write_whole(&rt, b"! 24\n");
        return;
    }
    let mut sheet: [u8; 65536] = [0; 65536];
    let mut out: [u8; 65536] = [0; 65536];
    rewrite(&rt, base_scan::part(&text, 0, n), &mut sheet, &mut out);
}
