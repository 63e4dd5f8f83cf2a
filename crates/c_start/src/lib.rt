// Gives C the start of a record.
//
// It stands alone, so that the check of bounds is compiled into it.
//
// Proved: the struct is the library's definition of the answer, by one definition that gives each case its number and value (RULES 10,
// 16). The function takes any bytes and numbers. Assumes nothing.
#![tactic(auto)]

ghost use Rattle.std.specs.Prelude.{◌≡◌};
ghost use Rattle.read_columns.specs.declared.column.Column.TheVariants.{Start};
ghost use Rattle.read_fields.specs.Fields.{position_at};
ghost use Rattle.c_answers.specs.Answers.{bounds_of_c, c_position};

use c_answers::{Gff3Bounds, Gff3Number};

// Column 4. Refusals 1, 2.
#[unsafe(no_mangle)]
pub extern "C" fn gff3_start(line: &[u8], bounds: Gff3Bounds) -> Gff3Number
    ensures { result ≡ c_position (position_at Start line.now (bounds_of_c bounds)) }
{
    c_answers::position_of(read_fields::start_at(line, c_answers::bounds_in(bounds)))
}
