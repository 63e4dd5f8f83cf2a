// Finds white space and words in a text, and tells whether two texts are equal, or one is `.`.
// In the Rust: `split_ascii_whitespace`.
//
// Every function takes any bytes and numbers: a cursor beyond the text counts as at its end.
//
// Proved: each answer equals the plain definition of specs/. Assumes nothing.
#![tactic(auto)]

mod same;
mod word;

pub use same::{is_dot, is_same};
pub use word::{find_ink, find_space, is_space, next_word};
