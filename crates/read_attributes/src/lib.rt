// Walks over the attributes of column 9 and says where each tag and each value stands.
// In the Rust: `record/attributes.rs`, `record/attributes/field.rs`.
//
// The functions here work on the column's text and a cursor by value; tags and values are places in the column, raw, which
// `base_scan::text` reads and `percent_decode::decode` decodes.
//
// Proved: a step is its definition, and steps in a row meet exactly what the walk of RULES 5.2 meets; the walk over a written column
// meets what was written. Assumes nothing.
#![tactic(auto)]

mod field;

pub use field::{Field, is_empty, next_field};
