// Exports the C functions of `c_attributes`.
//
// Each calls the function of its name there and promises the same, word for word. Assumes nothing.
#![tactic(auto)]

ghost use Rattle.std.specs.Prelude.{◌≡◌};
ghost use Rattle.base_lists.specs.Bit.{bit};
ghost use Rattle.read_attributes.specs.Attributes.{is_empty};
ghost use Rattle.c_attributes.specs.Attribute.{c_next_field, c_next_value};

use c_attributes::{Gff3Field, Gff3Value};

#[unsafe(no_mangle)]
pub extern "C" fn gff3_next_field(column: &[u8], at: usize) -> Gff3Field
    ensures { result ≡ c_next_field column.now at }
{
    c_attributes::gff3_next_field(column, at)
}

#[unsafe(no_mangle)]
pub extern "C" fn gff3_next_value(value: &[u8], at: usize, out: u64) -> Gff3Value
    ensures { result ≡ c_next_value value.now at out }
{
    c_attributes::gff3_next_value(value, at, out)
}

#[unsafe(no_mangle)]
pub extern "C" fn gff3_no_attributes(column: &[u8]) -> u32
    ensures { result ≡ bit (is_empty column.now) }
{
    c_attributes::gff3_no_attributes(column)
}
