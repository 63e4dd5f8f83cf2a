// A line admitted: what refuses it, or its numbers and its bounds. No text is decoded, and nothing of the sheet is measured.
ghost use Rattle.std.specs.Prelude.{◌≡◌, Ok};
ghost use Rattle.read_fields.specs.Fields.{record_of};
ghost use Rattle.read_attributes.specs.Attributes.{attributes, walk};
ghost use Rattle.read_judge.specs.Judge.{stuck, judged, numbers_judged};
ghost use Rattle.read_judge.specs.Survey.{admitted};
ghost use Rattle.read_judge.specs.Inner.Fields.{admit_fields};

use super::judging::Numbers;
use base_refusals::Refusal;
use read_columns::{Bounds, Column};
use read_fields::Record;

// Whether the walk over column 9 is refused: text is left without `=`. No walk is needed to tell: the last `=` stands in the last
// attribute, so there has to be one, and at most a `;` behind its value.
fn is_stuck(column: &[u8]) -> bool
    ensures { result ≡ stuck (attributes (walk column.now)) }
{
    if read_attributes::is_empty(column) {
        return false;
    }
    let equals = base_scan::find_last(column, b'=');
    if column.len() <= equals {
        return true;
    }
    let end = base_scan::find(column, equals + 1, b';');
    1 < column.len() - end
}

// The numbers of a record that was read, where column 9 does not refuse them. Refusal 5.
fn admit_fields(line: &[u8], read: Record) -> Result<(Numbers, Bounds), Refusal>
    requires { record_of line.now ≡ Ok read }
    ensures { result ≡ admit_fields line.now }
{
    let bounds = read.bounds;
    if is_stuck(read_columns::text_in(line, bounds, Column::Attributes)) {
        return Err(Refusal::Attribute);
    }
    Ok((super::judging::numbers_in(read), bounds))
}

// The numbers and the bounds of a line, or what refuses it, as `survey` has them.
pub fn admit(line: &[u8]) -> Result<(Numbers, Bounds), Refusal>
    ensures { result ≡ admitted line.now }
{
    if base_buffer::MOST_LINE < line.len() {
        return Err(Refusal::TooLong);
    }
    admit_fields(line, read_fields::record_of(line)?)
}

// The numbers of a line, or what refuses it, as `judge` has them.
pub fn judge_numbers(line: &[u8]) -> Result<Numbers, Refusal>
    ensures { result ≡ numbers_judged (judged line.now) }
{
    let (numbers, _) = admit(line)?;
    Ok(numbers)
}
