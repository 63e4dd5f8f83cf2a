// The writer.
ghost use Rattle.std.specs.Prelude.{◌*◌, ◌≤◌, length};
ghost use Rattle.base_buffer.specs.Answer.{Wrote};
ghost use Rattle.write_measure.specs.Record.{record_reasons, record_line};

use base_buffer::WriteError;
use base_refusals::Refusal;
use base_sink::Page;

// Writes a record that something is amiss with: the first reason is told. Three bytes for each of the sheet's fit, so the line would, too.
fn write_judged(
    sheet: &[u8],
    start: u64,
    end: u64,
    strand: u32,
    phase: u32,
    out: &mut [u8],
) -> Result<usize, WriteError>
    requires { 3 * length sheet.now ≤ length out.old }
    ensures { Wrote (record_reasons sheet.now start end strand phase)
        (record_line sheet.now start end strand phase) out.old out.new result }
{
    write_measure::refusal(sheet, start, end, strand, phase)?;
    let mut page = Page { out, at: 0 };
    write_line::put_line(sheet, start, end, strand, phase, &mut page);
    Ok(page.at)
}

// Writes a record where three bytes for each of the sheet's fit, as most callers have them: the line fits, too, so nothing is measured, and
// the place behind it is its length. Whether the sheet has the form `put_line` tells, before it puts anything, and where it has, the type,
// the score and the numbers were all that could be amiss: so the sheet is not judged first, which would be a walk more.
fn write_at_once(
    sheet: &[u8],
    start: u64,
    end: u64,
    strand: u32,
    phase: u32,
    out: &mut [u8],
) -> Result<usize, WriteError>
    requires { 3 * length sheet.now ≤ length out.old }
    ensures { Wrote (record_reasons sheet.now start end strand phase)
        (record_line sheet.now start end strand phase) out.old out.new result }
{
    if base_buffer::MOST_TEXT < sheet.len() {
        return Err(WriteError::Refused(Refusal::TooLong));
    }
    let Ok(()) = write_measure::fault(sheet, start, end, strand, phase) else {
        return write_judged(sheet, start, end, strand, phase, out);
    };
    let mut page = Page { out, at: 0 };
    if !write_line::put_line(sheet, start, end, strand, phase, &mut page) {
        return Err(WriteError::Refused(Refusal::Sheet));
    }
    Ok(page.at)
}

// Writes a record at the start of a buffer: the sheet's texts, each escaped by its column's set, and the numbers: strand 0 to 3 for `.`
// `+` `-` `?`; phase 0 to 2, and 3 for none. Refusals, in order: 24, the sheet is over 1,048,576 bytes; 23, it is not of the form; 2, a
// start or an end of zero; 17, a score that is no token; 3, a strand, and 4, a phase above 3; 18, the type is `CDS` and there is no
// phase; 22, with the length needed, where the line does not fit. A refused record changes no byte, and bytes behind the line stay.
pub fn write_record(
    sheet: &[u8],
    start: u64,
    end: u64,
    strand: u32,
    phase: u32,
    out: &mut [u8],
) -> Result<usize, WriteError>
    ensures { Wrote (record_reasons sheet.now start end strand phase)
        (record_line sheet.now start end strand phase) out.old out.new result }
{
    if sheet.len() <= out.len() / 3 {
        return write_at_once(sheet, start, end, strand, phase, out);
    }
    let need = write_measure::measure(sheet, start, end, strand, phase)?;
    if out.len() < need {
        return Err(WriteError::NoRoom(need));
    }
    let page = &mut Page { out, at: 0 };
    write_line::put_line(sheet, start, end, strand, phase, page);
    Ok(need)
}
