// Gives C an attribute of column 9 by its tag.
//
// It stands apart from the walk, so that the step which both take is compiled into each.
//
// Proved: the struct is the library's definition of the answer, by one definition that gives each case its number and place (RULES 10,
// 16). The function takes any bytes. Assumes nothing.
#![tactic(auto)]

ghost use Rattle.std.specs.Prelude.{◌≡◌};
ghost use Rattle.read_lookup.specs.Lookup.{find_tag};
ghost use Rattle.c_lookup.specs.Lookup.{c_found};

#[repr(C)]
#[derive(Clone, Copy)]
pub struct Gff3Found {
    pub refused: u64,
    pub found: u64,
    pub start: usize,
    pub end: usize,
}

// The raw value of a tag. Refusal 5.
#[unsafe(no_mangle)]
pub extern "C" fn gff3_find_tag(column: &[u8], tag: &[u8]) -> Gff3Found
    ensures { result ≡ c_found (find_tag column.now tag.now) }
{
    match read_lookup::find_tag(column, tag) {
        Ok(Some(place)) => Gff3Found {
            refused: 0,
            found: 1,
            start: place.start,
            end: place.end,
        },
        Ok(None) => Gff3Found {
            refused: 0,
            found: 0,
            start: 0,
            end: 0,
        },
        Err(refusal) => Gff3Found {
            refused: refusal.number() as u64,
            found: 0,
            start: 0,
            end: 0,
        },
    }
}
