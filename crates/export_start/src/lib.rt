// Exports the C functions of `c_start`.
//
// Each calls the function of its name there and promises the same, word for word. Assumes nothing.
#![tactic(auto)]

ghost use Rattle.std.specs.Prelude.{◌≡◌};
ghost use Rattle.read_columns.specs.declared.column.Column.TheVariants.{Start};
ghost use Rattle.read_fields.specs.Fields.{position_at};
ghost use Rattle.c_answers.specs.Answers.{bounds_of_c, c_position};

use c_answers::{Gff3Bounds, Gff3Number};

#[unsafe(no_mangle)]
pub extern "C" fn gff3_start(line: &[u8], bounds: Gff3Bounds) -> Gff3Number
    ensures { result ≡ c_position (position_at Start line.now (bounds_of_c bounds)) }
{
    c_start::gff3_start(line, bounds)
}
