// Cuts a record at its first eight tabs into nine columns, and finds each of them, raw.
// In the Rust: `Bounds` in `record/fields/bounds.rs`, `record/fields.rs`.
//
// A record is a line beside its bounds, both plain values; a raw column is a place in the line. `column_at` takes any bounds, and refuses 1
// where they are not the line's own; `place_in` and `text_in` do not ask whose they are.
//
// Proved: the bounds are one past each of the first eight tabs; each answer is the definition of specs/. Another format that shares the
// first eight columns shares the cutting and its laws. Assumes nothing.
#![tactic(auto)]

mod bounds;
mod column;

pub use bounds::{Bounds, index, own};
pub use column::{Column, column_at, place_in, text_in};
