// Writes a record as a line into a lent buffer, from its field sheet and the numbers beside it.
// In the Rust: `io/writer/line/record.rs` and below.
//
// The caller adds the line feed.
//
// Proved: the answer and the whole buffer are those that the definitions of `write_measure` give, refusals in the order of RULES 11.3; a
// refused record changes no byte. The record is judged before its first byte is laid, and measured where it might not fit; each byte of the
// sheet is read a fixed number of times. Assumes nothing.
#![tactic(auto)]

mod write;

pub use write::write_record;
