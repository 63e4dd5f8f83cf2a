// Column 8.
ghost use Rattle.std.specs.Prelude.{◌≡◌};
ghost use Rattle.read_fields.specs.Fields.{phase_at};

use base_refusals::Refusal;
use read_columns::{Bounds, Column};
use read_tokens::Phase;

// Column 8. Refusals, in order: 1, not the line's own bounds; 4, no phase.
#[tactic(auto, unfolding(crate::specs::Fields::phase_at))]
pub fn phase_at(line: &[u8], bounds: Bounds) -> Result<Phase, Refusal>
    ensures { result ≡ phase_at line.now bounds }
{
    let place = read_columns::column_at(line, bounds, Column::Phase)?;
    read_tokens::phase_of(base_scan::text(line, place))
}
