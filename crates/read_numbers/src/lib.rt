// Reads positions, the positions of a sequence region and the parts of a version from decimal digits.
// In the Rust: lexical-core, `str::parse`.
//
// Every function takes any bytes.
//
// Proved: what is read is the value of the digits, whatever their count, and nothing else is read. One proof over the width and the sign
// rule serves the three forms. Assumes nothing.
#![tactic(auto)]

mod read;

pub use read::{position, region_position, version_part};
