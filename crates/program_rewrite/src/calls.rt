// Standard input read to its end and a text written to standard output, a call at a time.
//
// A call that a signal interrupts is tried again. A loop has to end, so there are as many tries as no run uses up.
// Where a call fails, a line on standard error says so and why.
ghost use Rattle.std.specs.Prelude.{◌≤◌, ◌≡◌, length, MatchResult};
ghost use Rattle.program_rewrite.specs.Calls.{outcome, Within};

use crate::reason::Reason;
use std::io::{Error, ErrorKind, Result};

// Says on standard error what failed, and why.
fn fail(rt: &impl Eprint, what: &str, error: &Error) {
    let reason = Reason::of(error);
    let text = reason.text();
    let _ = eprintln!(rt; "{what}: {text}");
}

fn is_interrupted(answer: &Result<usize>) -> bool {
    match answer {
        Ok(_) => false,
        Err(error) => error.kind() == ErrorKind::Interrupted,
    }
}

// How many bytes a read got, none at the end of the input; where it failed, which is said and is no end of the input, `None`.
fn bytes_read(rt: &impl Eprint, answer: Result<usize>) -> Option<usize>
    ensures { result ≡ outcome answer }
{
    match answer {
        Ok(n) => Some(n),
        Err(error) => {
            fail(rt, "rewrite: standard input cannot be read", &error);
            None
        }
    }
}

// One read of standard input; `None` where it failed.
fn read_some<I: std::io::Read>(rt: &impl Eprint, input: &mut I, buffer: &mut [u8]) -> Option<usize>
    ensures { Within result (length buffer.old) }
{
    for _ in 0..u64::MAX {
        let answer = input.read(buffer);
        if !is_interrupted(&answer) {
            return bytes_read(rt, answer);
        }
    }
    bytes_read(rt, input.read(buffer))
}

// One write to standard output: how many bytes it took, 0 where it failed. A write that takes none has failed too, so that an `Option`
// would say no more.
fn write_some(rt: &(impl Print + Eprint), text: &[u8]) -> usize
    ensures { result ≤ length text.now }
{
    for _ in 0..u64::MAX {
        let answer = rt.write_some(text);
        if !is_interrupted(&answer) {
            return bytes_taken(rt, answer);
        }
    }
    bytes_taken(rt, rt.write_some(text))
}

// How many bytes a write took; where it failed, which is said, 0.
fn bytes_taken(rt: &impl Eprint, answer: Result<usize>) -> usize
    ensures { MatchResult answer (λ n. result ≡ n) (λ _. result ≡ 0) }
{
    let error = match answer {
        Ok(0) => Error::from(ErrorKind::WriteZero),
        Ok(n) => return n,
        Err(error) => error,
    };
    fail(rt, "rewrite: standard output cannot be written", &error);
    0
}

// Reads standard input until it ends or the buffer is full: how many bytes came, `None` where a read failed. A step is as long as the
// system makes it, so it is no `for`; so in `write_whole`.
pub(crate) fn fill<I: std::io::Read>(
    rt: &impl Eprint,
    input: &mut I,
    buffer: &mut [u8],
) -> Option<usize>
    ensures { Within result (length buffer.new) }
{
    let mut done = 0;
    while done < buffer.len() {
        let n = read_some(rt, input, &mut buffer[done..])?;
        if n == 0 {
            break;
        }
        done += n;
    }
    Some(done)
}

// Writes the whole text to standard output, and answers whether it could.
pub(crate) fn write_whole(rt: &(impl Print + Eprint), text: &[u8]) -> bool {
    let mut done = 0;
    while done < text.len() {
        let taken = write_some(rt, &text[done..]);
        if taken == 0 {
            return false;
        }
        done += taken;
    }
    true
}
