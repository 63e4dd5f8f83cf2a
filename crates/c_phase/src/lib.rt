// Gives C the phase of a record, by its number.
//
// It stands alone, so that the check of bounds is compiled into it.
//
// Proved: the struct is the library's definition of the answer, by one definition that gives each case its number and value (RULES 10,
// 16). The function takes any bytes and numbers. Assumes nothing.
#![tactic(auto)]

ghost use Rattle.std.specs.Prelude.{◌≡◌};
ghost use Rattle.read_fields.specs.Fields.{phase_at};
ghost use Rattle.c_answers.specs.Answers.{bounds_of_c};
ghost use Rattle.c_phase.specs.Phase.{c_phase};

use c_answers::{Gff3Bounds, Gff3Number};

// Column 8: 0 to 2, and 3 for none. Refusals 1, 4.
#[unsafe(no_mangle)]
pub extern "C" fn gff3_phase(line: &[u8], bounds: Gff3Bounds) -> Gff3Number
    ensures { result ≡ c_phase (phase_at line.now (bounds_of_c bounds)) }
{
    match read_fields::phase_at(line, c_answers::bounds_in(bounds)) {
        Ok(phase) => Gff3Number {
            refused: 0,
            value: read_tokens::phase_number(phase) as u64,
        },
        Err(r) => Gff3Number {
            refused: r.number() as u64,
            value: 0,
        },
    }
}
