// Column 7.
ghost use Rattle.std.specs.Prelude.{◌≡◌};
ghost use Rattle.read_fields.specs.Fields.{strand_at};

use base_refusals::Refusal;
use read_columns::{Bounds, Column};
use read_tokens::Strand;

// Column 7. Refusals, in order: 1, not the line's own bounds; 3, no strand.
#[tactic(auto, unfolding(crate::specs::Fields::strand_at))]
pub fn strand_at(line: &[u8], bounds: Bounds) -> Result<Strand, Refusal>
    ensures { result ≡ strand_at line.now bounds }
{
    let place = read_columns::column_at(line, bounds, Column::Strand)?;
    read_tokens::strand_of(base_scan::text(line, place))
}
