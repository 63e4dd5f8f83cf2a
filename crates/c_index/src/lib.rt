// Gives C the bounds of a line.
//
// It stands alone, so that the index is compiled into it and writes C's struct directly.
//
// Proved: the struct is the library's definition of the answer, by one definition that gives each case its number and places (RULES 10,
// 16). The function takes any bytes. Assumes nothing.
#![tactic(auto)]

ghost use Rattle.std.specs.Prelude.{◌≡◌};
ghost use Rattle.read_columns.specs.Columns.{indexed};
ghost use Rattle.c_index.specs.Index.{c_indexed};

use c_answers::Gff3Bounds;

#[repr(C)]
#[derive(Clone, Copy)]
pub struct Gff3Indexed {
    pub refused: u64,
    pub bounds: Gff3Bounds,
}

// The bounds of a line. Refusal 1: it has fewer than eight tabs.
#[unsafe(no_mangle)]
pub extern "C" fn gff3_index(line: &[u8]) -> Gff3Indexed
    ensures { result ≡ c_indexed (indexed line.now) }
{
    match read_columns::index(line) {
        Ok(b) => Gff3Indexed {
            refused: 0,
            bounds: c_answers::bounds_out(b),
        },
        Err(r) => Gff3Indexed {
            refused: r.number() as u64,
            bounds: c_answers::no_bounds(),
        },
    }
}
