// Writes a comment, `#` and its text, into a lent buffer, and proves that it reads back.
// In the Rust: `io/writer/line/comment.rs`.
//
// The caller adds the line feed.
//
// Proved: each answer and the whole content of the buffer, for every input; what is accepted reads back as it was, and is one line.
// Assumes nothing.
#![tactic(auto)]

ghost use Rattle.std.specs.Prelude.{◌≡◌};
ghost use Rattle.base_buffer.specs.Answer.{Wrote, refusal_of, unless};
ghost use Rattle.write_comment.specs.Comment.{hashed, comment_reasons, comment_line};

use base_buffer::WriteError;
use base_refusals::Refusal;

fn is_hashed(text: &[u8]) -> bool
    ensures { result ≡ hashed text.now }
{
    text.first().copied() == Some(b'#')
}

// The first reason to refuse a text.
fn refusal(text: &[u8]) -> Result<(), Refusal>
    ensures { result ≡ unless (refusal_of (comment_reasons text.now)) tt }
{
    if write_texts::is_long(text) {
        return Err(Refusal::TooLong);
    }
    if write_texts::breaks(text) | is_hashed(text) {
        return Err(Refusal::Text);
    }
    Ok(())
}

// Writes `#` and the text at the start of a buffer. Refusals, in order: 24, the text is over 1,048,576 bytes; 20, it holds a carriage
// return or a line feed, or begins with `#`, which would make it a directive; 22, with the length needed, where the line does not fit.
// The empty text is written as `#`.
pub fn write_comment(text: &[u8], out: &mut [u8]) -> Result<usize, WriteError>
    ensures { Wrote (comment_reasons text.now) (comment_line text.now) out.old out.new result }
{
    refusal(text)?;
    let need = 1 + text.len();
    if out.len() < need {
        return Err(WriteError::NoRoom(need));
    }
    let at = base_buffer::lay_byte(b'#', out, 0);
    base_buffer::lay(text, out, at);
    Ok(need)
}
