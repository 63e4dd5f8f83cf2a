// Gives C the columns of a record, raw: where each of them stands.
//
// Proved: each struct is the library's definition of the answer, by one definition for each enum, which gives each case its numbers and
// places (RULES 10, 16). Every function takes any bytes and numbers. Assumes nothing.
#![tactic(auto)]

ghost use Rattle.std.specs.Prelude.{◌≡◌};
ghost use Rattle.c_answers.specs.Answers.{bounds_of_c};
ghost use Rattle.c_columns.specs.Columns.{column_of_c, c_column_at, c_place};

use base_refusals::Refusal;
use base_scan::Place;
use c_answers::Gff3Bounds;
use read_columns::{Bounds, Column};

#[repr(C)]
#[derive(Clone, Copy)]
pub struct Gff3Place {
    pub refused: u64,
    pub start: usize,
    pub end: usize,
}

// The column of a number, 1 to 9.
fn column_of(column: u32) -> Option<Column>
    ensures { result ≡ column_of_c column }
{
    match column {
        1 => Some(Column::ReferenceSequenceName),
        2 => Some(Column::Source),
        3 => Some(Column::Ty),
        4 => Some(Column::Start),
        5 => Some(Column::End),
        6 => Some(Column::Score),
        7 => Some(Column::Strand),
        8 => Some(Column::Phase),
        9 => Some(Column::Attributes),
        _ => None,
    }
}

fn column_at(line: &[u8], bounds: Bounds, column: Option<Column>) -> Result<Place, Refusal>
    ensures { result ≡ c_column_at column line.now bounds }
{
    read_columns::column_at(line, bounds, column.ok_or(Refusal::Columns)?)
}

// A raw column as a place. Refusal 1: the bounds are not the line's own, or the number is not one of 1 to 9.
#[unsafe(no_mangle)]
pub extern "C" fn gff3_column(line: &[u8], bounds: Gff3Bounds, column: u32) -> Gff3Place
    ensures { result ≡ c_place (c_column_at (column_of_c column) line.now (bounds_of_c bounds)) }
{
    match column_at(line, c_answers::bounds_in(bounds), column_of(column)) {
        Ok(place) => Gff3Place {
            refused: 0,
            start: place.start,
            end: place.end,
        },
        Err(r) => Gff3Place {
            refused: r.number() as u64,
            start: 0,
            end: 0,
        },
    }
}
