// Lays the parts of a field sheet, counts and the texts behind them, over a lent buffer.
//
// Proved: what is laid is the definition of `sheet_form`. Assumes nothing.
#![tactic(auto)]

ghost use Rattle.base_buffer.specs.Laid.{Lays};
ghost use Rattle.percent_coding.specs.Percent.{decoded};
ghost use Rattle.sheet_form.specs.Sheet.{count_of, section_of};

// Lays a count, low byte first. It has four bytes: of a number of 4,294,967,296 and more the low four are laid, and no sheet says so.
pub fn lay_count(n: usize, out: &mut [u8], at: usize) -> usize
    ensures { Lays (count_of n) out.old at out.new result }
{
    let second = base_buffer::lay_byte((n % 256) as u8, out, at);
    let third = base_buffer::lay_byte((n / 256 % 256) as u8, out, second);
    let last = base_buffer::lay_byte((n / 65536 % 256) as u8, out, third);
    base_buffer::lay_byte((n / 16777216 % 256) as u8, out, last)
}

// Lays a text after its count.
pub fn lay_section(text: &[u8], out: &mut [u8], at: usize) -> usize
    ensures { Lays (section_of text.now) out.old at out.new result }
{
    let from = lay_count(text.len(), out, at);
    base_buffer::lay(text, out, from)
}

// Lays the decoded text after its count. A text that decoding does not shorten is its own: it is copied.
pub fn lay_decoded_section(text: &[u8], out: &mut [u8], at: usize) -> usize
    ensures { Lays (section_of (decoded text.now)) out.old at out.new result }
{
    let n = percent_decode::decoded_len(text);
    let from = lay_count(n, out, at);
    if n == text.len() {
        return base_buffer::lay(text, out, from);
    }
    percent_decode::lay_decoded(text, out, from)
}
