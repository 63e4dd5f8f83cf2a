// Writes a directive, `##`, its key and its value, into a lent buffer, and proves that it reads back.
// In the Rust: `io/writer/line/directive.rs`.
//
// Between the key and the value stands a space, where there is a value. The caller adds the line feed.
//
// Proved: each answer and the whole content of the buffer, for every input; what is accepted reads back as it was, and is one line.
// Assumes nothing.
#![tactic(auto)]

mod directive;
mod genome_build;
mod gff_version;
mod judge;
mod pieces;
mod sequence_region;

pub use directive::{Value, write_directive};
