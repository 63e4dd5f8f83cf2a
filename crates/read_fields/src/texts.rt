// `Record`: columns 1 to 3, percent-decoded into a lent buffer.
ghost use Rattle.base_buffer.specs.Answer.{Wrote};
ghost use Rattle.percent_coding.specs.Percent.{decoded};
ghost use Rattle.read_columns.specs.declared.column.Column.TheVariants.{ReferenceSequenceName, Source, Ty};
ghost use Rattle.read_columns.specs.Columns.{column_text};
ghost use Rattle.read_fields.specs.Fields.{text_reasons};

use base_buffer::WriteError;
use read_columns::{Bounds, Column};

fn text_at(line: &[u8], bounds: Bounds, column: Column, out: &mut [u8]) -> Result<usize, WriteError>
    ensures { Wrote (text_reasons line.now bounds)
        (decoded (column_text column line.now)) out.old out.new result }
{
    let place = read_columns::column_at(line, bounds, column)?;
    percent_decode::decode(base_scan::text(line, place), out)
}

// Column 1, decoded at the start of a buffer. Refusals, in order: 1, not the line's own bounds; 22, with the length needed.
pub fn reference_sequence_name(
    line: &[u8],
    bounds: Bounds,
    out: &mut [u8],
) -> Result<usize, WriteError>
    ensures { Wrote (text_reasons line.now bounds)
        (decoded (column_text ReferenceSequenceName line.now)) out.old out.new result }
{
    text_at(line, bounds, Column::ReferenceSequenceName, out)
}

// Column 2, likewise.
pub fn source(line: &[u8], bounds: Bounds, out: &mut [u8]) -> Result<usize, WriteError>
    ensures { Wrote (text_reasons line.now bounds)
        (decoded (column_text Source line.now)) out.old out.new result }
{
    text_at(line, bounds, Column::Source, out)
}

// Column 3, likewise.
pub fn ty(line: &[u8], bounds: Bounds, out: &mut [u8]) -> Result<usize, WriteError>
    ensures { Wrote (text_reasons line.now bounds)
        (decoded (column_text Ty line.now)) out.old out.new result }
{
    text_at(line, bounds, Column::Ty, out)
}
