// Exports the C functions of `c_index`.
//
// Each calls the function of its name there and promises the same, word for word. Assumes nothing.
#![tactic(auto)]

ghost use Rattle.std.specs.Prelude.{◌≡◌};
ghost use Rattle.read_columns.specs.Columns.{indexed};
ghost use Rattle.c_index.specs.Index.{c_indexed};

use c_index::Gff3Indexed;

#[unsafe(no_mangle)]
pub extern "C" fn gff3_index(line: &[u8]) -> Gff3Indexed
    ensures { result ≡ c_indexed (indexed line.now) }
{
    c_index::gff3_index(line)
}
