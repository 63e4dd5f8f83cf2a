// Exports the C functions of `c_lookup`.
//
// Each calls the function of its name there and promises the same, word for word. Assumes nothing.
#![tactic(auto)]

ghost use Rattle.std.specs.Prelude.{◌≡◌};
ghost use Rattle.read_lookup.specs.Lookup.{find_tag};
ghost use Rattle.c_lookup.specs.Lookup.{c_found};

use c_lookup::Gff3Found;

#[unsafe(no_mangle)]
pub extern "C" fn gff3_find_tag(column: &[u8], tag: &[u8]) -> Gff3Found
    ensures { result ≡ c_found (find_tag column.now tag.now) }
{
    c_lookup::gff3_find_tag(column, tag)
}
