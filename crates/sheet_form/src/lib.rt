// Defines the field sheet, the texts of a record each after its count, and reads it at a cursor.
//
// Proved: a count or a section at a cursor is what the readers of specs/ read there; a sheet reads back from its bytes, and its bytes are
// those of no other. No count is trusted: each is held against the bytes that are left. Assumes nothing.
#![tactic(auto)]

mod read;

pub use read::{count_at, section_at};
