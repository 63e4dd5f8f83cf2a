// Exports the C functions of `c_columns`.
//
// Each calls the function of its name there and promises the same, word for word. Assumes nothing.
#![tactic(auto)]

ghost use Rattle.std.specs.Prelude.{◌≡◌};
ghost use Rattle.c_answers.specs.Answers.{bounds_of_c};
ghost use Rattle.c_columns.specs.Columns.{column_of_c, c_column_at, c_place};

use c_answers::Gff3Bounds;
use c_columns::Gff3Place;

#[unsafe(no_mangle)]
pub extern "C" fn gff3_column(line: &[u8], bounds: Gff3Bounds, column: u32) -> Gff3Place
    ensures { result ≡ c_place (c_column_at (column_of_c column) line.now (bounds_of_c bounds)) }
{
    c_columns::gff3_column(line, bounds, column)
}
