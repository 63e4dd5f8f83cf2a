// Gives C the strand of a record, by its number.
//
// It stands alone, so that the check of bounds is compiled into it.
//
// Proved: the struct is the library's definition of the answer, by one definition that gives each case its number and value (RULES 10,
// 16). The function takes any bytes and numbers. Assumes nothing.
#![tactic(auto)]

ghost use Rattle.std.specs.Prelude.{◌≡◌};
ghost use Rattle.read_fields.specs.Fields.{strand_at};
ghost use Rattle.c_answers.specs.Answers.{bounds_of_c};
ghost use Rattle.c_strand.specs.Strand.{c_strand};

use c_answers::{Gff3Bounds, Gff3Number};

// Column 7: 0 to 3 for `.` `+` `-` `?`. Refusals 1, 3.
#[unsafe(no_mangle)]
pub extern "C" fn gff3_strand(line: &[u8], bounds: Gff3Bounds) -> Gff3Number
    ensures { result ≡ c_strand (strand_at line.now (bounds_of_c bounds)) }
{
    match read_fields::strand_at(line, c_answers::bounds_in(bounds)) {
        Ok(strand) => Gff3Number {
            refused: 0,
            value: read_tokens::strand_number(strand) as u64,
        },
        Err(r) => Gff3Number {
            refused: r.number() as u64,
            value: 0,
        },
    }
}
