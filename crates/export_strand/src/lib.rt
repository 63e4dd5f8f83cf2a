// Exports the C functions of `c_strand`.
//
// Each calls the function of its name there and promises the same, word for word. Assumes nothing.
#![tactic(auto)]

ghost use Rattle.std.specs.Prelude.{◌≡◌};
ghost use Rattle.read_fields.specs.Fields.{strand_at};
ghost use Rattle.c_answers.specs.Answers.{bounds_of_c};
ghost use Rattle.c_strand.specs.Strand.{c_strand};

use c_answers::{Gff3Bounds, Gff3Number};

#[unsafe(no_mangle)]
pub extern "C" fn gff3_strand(line: &[u8], bounds: Gff3Bounds) -> Gff3Number
    ensures { result ≡ c_strand (strand_at line.now (bounds_of_c bounds)) }
{
    c_strand::gff3_strand(line, bounds)
}
