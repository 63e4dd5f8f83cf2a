// The verdict.
ghost use Rattle.std.specs.Prelude.{◌≡◌, ◌≤◌, is_some, length};
ghost use Rattle.base_lists.specs.Limits.{most_text};
ghost use Rattle.base_buffer.specs.Answer.{refusal_of, unless};
ghost use Rattle.sheet_form.specs.Sheet.{sheet_read};
ghost use Rattle.write_measure.specs.Record.{record_reasons, measured};

use base_refusals::Refusal;

// The first reason to refuse a sheet that is not too long and has the form, or has not.
fn refusal_behind(
    form: bool,
    sheet: &[u8],
    start: u64,
    end: u64,
    strand: u32,
    phase: u32,
) -> Result<(), Refusal>
    requires { (length sheet.now ≤ most_text) × (form ≡ is_some (sheet_read sheet.now)) }
    ensures { result ≡ unless (refusal_of (record_reasons sheet.now start end strand phase)) tt }
{
    if !form {
        return Err(Refusal::Sheet);
    }
    super::reasons::fault(sheet, start, end, strand, phase)
}

// The first reason to refuse a record: as `measure`, and no text is measured.
pub fn refusal(sheet: &[u8], start: u64, end: u64, strand: u32, phase: u32) -> Result<(), Refusal>
    ensures { result ≡ unless (refusal_of (record_reasons sheet.now start end strand phase)) tt }
{
    if base_buffer::MOST_TEXT < sheet.len() {
        return Err(Refusal::TooLong);
    }
    let form = write_line::is_form(sheet);
    refusal_behind(form, sheet, start, end, strand, phase)
}

// The length of a record's line, without a buffer. Strand 0 to 3 for `.` `+` `-` `?`; phase 0 to 2, and 3 for none. Refusals, in order: 24,
// the sheet is over 1,048,576 bytes; 23, it is not of the form; 2, a start or an end of zero; 17, a score that is no token; 3, a strand,
// and 4, a phase above 3; 18, the type is `CDS` and there is no phase.
pub fn measure(
    sheet: &[u8],
    start: u64,
    end: u64,
    strand: u32,
    phase: u32,
) -> Result<usize, Refusal>
    ensures { result ≡ measured sheet.now start end strand phase }
{
    if base_buffer::MOST_TEXT < sheet.len() {
        return Err(Refusal::TooLong);
    }
    let counted = write_line::count_line(sheet, start, end, strand, phase);
    refusal_behind(counted.is_some(), sheet, start, end, strand, phase)?;
    Ok(counted.unwrap_or(0))
}
