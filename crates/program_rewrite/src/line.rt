// One line, answered by way of a sheet buffer and a line buffer that are used anew.
ghost use Rattle.std.specs.Prelude.{◌≡◌, length};
ghost use Rattle.base_scan.specs.Part.{part};
ghost use Rattle.base_buffer.specs.Answer.{error_number};
ghost use Rattle.program_rewrite.specs.Rewrite.{refusal, written_again, record_again, line_rewritten};
ghost use Rattle.program_rewrite.specs.Shown.{shown_for};

use base_buffer::WriteError;
use read_judge::Numbers;
use read_kind::Kind;

// Which text is written for a line. An `Option` would not say that the line stays.
#[derive(Clone, Copy)]
pub(crate) enum Answer {
    // The line stays as it was read.
    AsRead,
    // So many bytes stand at the start of the line buffer.
    Laid(usize),
}

// Lays a refusal: `! ` and its number.
fn refuse(error: WriteError, out: &mut [u8]) -> usize
    requires { length out.old ≡ 65536 }
    ensures { part 0 result out.new ≡ refusal (error_number error) }
{
    let at = base_buffer::lay(b"! ", out, 0);
    write_decimals::lay_decimal(error.number() as u64, out, at)
}

// Writes a sheet and its numbers again, or the writer's refusal.
fn write_again(sheet: &[u8], numbers: Numbers, out: &mut [u8]) -> usize
    requires { length out.old ≡ 65536 }
    ensures { part 0 result out.new ≡ written_again sheet.now numbers }
{
    let strand = numbers.strand;
    let phase = numbers.phase;
    let strand = read_tokens::strand_number(strand);
    let phase = read_tokens::phase_number(phase);
    match write_record::write_record(sheet, numbers.start, numbers.end, strand, phase, out) {
        Ok(n) => n,
        Err(error) => refuse(error, out),
    }
}

// Unfolds a record and writes it again, or lays the refusal of either.
fn rewrite_record(line: &[u8], sheet: &mut [u8], out: &mut [u8]) -> usize
    requires { (length sheet.old ≡ 65536) × (length out.old ≡ 65536) }
    ensures { part 0 result out.new ≡ record_again line.now }
{
    match read_record::unfold(line, sheet) {
        Ok((numbers, n)) => write_again(base_scan::part(sheet, 0, n), numbers, out),
        Err(error) => refuse(error, out),
    }
}

// What is to be written for a line.
pub(crate) fn rewrite_line(line: &[u8], sheet: &mut [u8], out: &mut [u8]) -> Answer
    requires { (length sheet.old ≡ 65536) × (length out.old ≡ 65536) }
    ensures { shown_for result line.now out.new ≡ line_rewritten line.now }
{
    match read_kind::kind_of(line) {
        Kind::Record => Answer::Laid(rewrite_record(line, sheet, out)),
        Kind::Comment => Answer::AsRead,
        Kind::Directive => Answer::AsRead,
    }
}

// The text that an answer stands for.
pub(crate) fn shown<'a>(answer: Answer, line: &'a [u8], out: &'a [u8]) -> &'a [u8]
    ensures { result.now ≡ shown_for answer line.now out.now }
{
    match answer {
        Answer::AsRead => line,
        Answer::Laid(n) => base_scan::part(out, 0, n),
    }
}
