// Gives C the walk over column 9, and the values of an attribute.
//
// Proved: each struct is the library's definition of the answer, by one definition for each enum, which gives each case its numbers and
// places (RULES 10, 16); a cursor handed out is never beyond the text, and where a walk is done or refused another call with it answers
// the same (proofs/CursorLaws.antt). Every function takes any bytes and numbers. Assumes nothing.
#![tactic(auto)]

ghost use Rattle.std.specs.Prelude.{◌≡◌};
ghost use Rattle.base_lists.specs.Bit.{bit};
ghost use Rattle.read_attributes.specs.Attributes.{is_empty};
ghost use Rattle.c_attributes.specs.Attribute.{c_next_field, c_next_value};

use read_values::ValueCursor;

#[repr(C)]
#[derive(Clone, Copy)]
pub struct Gff3Field {
    pub refused: u64,
    pub done: u64,
    pub tag_start: usize,
    pub tag_end: usize,
    pub value_start: usize,
    pub value_end: usize,
    pub next: usize,
}

#[repr(C)]
#[derive(Clone, Copy)]
pub struct Gff3Value {
    pub done: u64,
    pub start: usize,
    pub end: usize,
    pub next: usize,
    pub out: u64,
}

// The attribute at a cursor, and the cursor behind it; where the walk is done or refused, the cursor stays. Refusal 5.
#[unsafe(no_mangle)]
pub extern "C" fn gff3_next_field(column: &[u8], at: usize) -> Gff3Field
    ensures { result ≡ c_next_field column.now at }
{
    let here = base_numbers::least(at, column.len());
    match read_attributes::next_field(column, at) {
        Ok(Some(field)) => {
            let (tag, value) = (field.tag, field.value);
            Gff3Field {
                refused: 0,
                done: 0,
                tag_start: tag.start,
                tag_end: tag.end,
                value_start: value.start,
                value_end: value.end,
                next: field.next,
            }
        }
        Ok(None) => Gff3Field {
            refused: 0,
            done: 1,
            tag_start: 0,
            tag_end: 0,
            value_start: 0,
            value_end: 0,
            next: here,
        },
        Err(refusal) => Gff3Field {
            refused: refusal.number() as u64,
            done: 0,
            tag_start: 0,
            tag_end: 0,
            value_start: 0,
            value_end: 0,
            next: here,
        },
    }
}

// The next of the values of an attribute. The cursor is `at` and `out`: any `out` but 0 says that the last value is out. The walk is done
// then, and the cursor stays.
#[unsafe(no_mangle)]
pub extern "C" fn gff3_next_value(value: &[u8], at: usize, out: u64) -> Gff3Value
    ensures { result ≡ c_next_value value.now at out }
{
    match read_values::next_value(value, ValueCursor { at, out: out != 0 }) {
        Some((place, cursor)) => Gff3Value {
            done: 0,
            start: place.start,
            end: place.end,
            next: cursor.at,
            out: cursor.out as u64,
        },
        None => Gff3Value {
            done: 1,
            start: 0,
            end: 0,
            next: base_numbers::least(at, value.len()),
            out: 1,
        },
    }
}

// 1 where the column is a dot or has no byte.
#[unsafe(no_mangle)]
pub extern "C" fn gff3_no_attributes(column: &[u8]) -> u32
    ensures { result ≡ bit (is_empty column.now) }
{
    read_attributes::is_empty(column) as u32
}
