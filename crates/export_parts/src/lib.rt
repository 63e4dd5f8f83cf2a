// Exports the C functions of `c_parts`.
//
// Each calls the function of its name there and promises the same, word for word. Assumes nothing.
#![tactic(auto)]

ghost use Rattle.c_parts.specs.Part.{CTakesPart, CEndsParts};

use c_parts::{Gff3Part, Gff3State};

#[unsafe(no_mangle)]
pub extern "C" fn gff3_take_part(state: Gff3State, hold: &mut [u8], part: &[u8]) -> Gff3Part
    ensures { CTakesPart state part.now hold.old hold.new result }
{
    c_parts::gff3_take_part(state, hold, part)
}

#[unsafe(no_mangle)]
pub extern "C" fn gff3_end_parts(state: Gff3State, hold: &mut [u8]) -> Gff3Part
    ensures { CEndsParts state hold.old hold.new result }
{
    c_parts::gff3_end_parts(state, hold)
}
