// Exports the C functions of `c_phase`.
//
// Each calls the function of its name there and promises the same, word for word. Assumes nothing.
#![tactic(auto)]

ghost use Rattle.std.specs.Prelude.{◌≡◌};
ghost use Rattle.read_fields.specs.Fields.{phase_at};
ghost use Rattle.c_answers.specs.Answers.{bounds_of_c};
ghost use Rattle.c_phase.specs.Phase.{c_phase};

use c_answers::{Gff3Bounds, Gff3Number};

#[unsafe(no_mangle)]
pub extern "C" fn gff3_phase(line: &[u8], bounds: Gff3Bounds) -> Gff3Number
    ensures { result ≡ c_phase (phase_at line.now (bounds_of_c bounds)) }
{
    c_phase::gff3_phase(line, bounds)
}
