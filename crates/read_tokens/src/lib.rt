// Reads a position, a strand or a phase from the text of its own column.
// In the Rust: `parse_strand` and `parse_phase` in `record.rs`, `parse_position` in `record/fields.rs`.
//
// Nothing here takes a line or bounds: the field readers of `read_fields` stand on these, and so does whoever has such a text from
// elsewhere.
//
// Proved: each answer is the definition of specs/. Assumes nothing.
#![tactic(auto)]

mod phase;
mod position;
mod strand;

pub use phase::{Phase, phase_byte, phase_number, phase_of};
pub use position::position_of;
pub use strand::{Strand, strand_byte, strand_number, strand_of};
