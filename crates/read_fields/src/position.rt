// Columns 4 and 5: start and end.
ghost use Rattle.std.specs.Prelude.{◌≡◌};
ghost use Rattle.read_columns.specs.declared.column.Column.TheVariants.{Start, End};
ghost use Rattle.read_fields.specs.Fields.{position_at};

use base_refusals::Refusal;
use read_columns::{Bounds, Column};

#[tactic(auto, unfolding(crate::specs::Fields::position_at))]
fn position_at(line: &[u8], bounds: Bounds, column: Column) -> Result<u64, Refusal>
    ensures { result ≡ position_at column line.now bounds }
{
    let place = read_columns::column_at(line, bounds, column)?;
    read_tokens::position_of(base_scan::text(line, place))
}

// Column 4. Refusals, in order: 1, not the line's own bounds; 2, no position.
pub fn start_at(line: &[u8], bounds: Bounds) -> Result<u64, Refusal>
    ensures { result ≡ position_at Start line.now bounds }
{
    position_at(line, bounds, Column::Start)
}

// Column 5, likewise.
pub fn end_at(line: &[u8], bounds: Bounds) -> Result<u64, Refusal>
    ensures { result ≡ position_at End line.now bounds }
{
    position_at(line, bounds, Column::End)
}
