// Reads the value of a `sequence-region` or a `genome-build` directive, word by word.
// In the Rust: `SequenceRegion` and `GenomeBuild` in `directive_buf/value/`.
//
// Each parser goes from left to right and answers by value; names are places in the text, and are not percent-decoded.
//
// Proved: each answer is the definition of specs/, and each refusal is given exactly when its reason holds and none further left does.
// What is written with one space between the words reads back. Assumes nothing.
#![tactic(auto)]

mod genome_build;
mod sequence_region;
mod words;

pub use genome_build::{GenomeBuild, parse_genome_build};
pub use sequence_region::{SequenceRegion, parse_sequence_region};
