// Exports the C functions of `c_end`.
//
// Each calls the function of its name there and promises the same, word for word. Assumes nothing.
#![tactic(auto)]

ghost use Rattle.std.specs.Prelude.{◌≡◌};
ghost use Rattle.read_columns.specs.declared.column.Column.TheVariants.{End};
ghost use Rattle.read_fields.specs.Fields.{position_at};
ghost use Rattle.c_answers.specs.Answers.{bounds_of_c, c_position};

use c_answers::{Gff3Bounds, Gff3Number};

#[unsafe(no_mangle)]
pub extern "C" fn gff3_end(line: &[u8], bounds: Gff3Bounds) -> Gff3Number
    ensures { result ≡ c_position (position_at End line.now (bounds_of_c bounds)) }
{
    c_end::gff3_end(line, bounds)
}
