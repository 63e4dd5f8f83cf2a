// The words of a case that program_replay replays, and of its answer.
//
// A case is a line, a letter and its words: numbers in decimal, texts in hex, `-` for the empty text. An answer is words too, each with a
// space behind it. A buffer that a call writes is filled with 0xAA first and shown whole, so that the bytes that are not to be touched are
// seen. Proved: each function is safe and ends.
#![tactic(auto)]

pub mod case;
pub mod show;
