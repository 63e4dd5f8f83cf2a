// Puts a record's line, from its field sheet and the numbers beside it, into any sink.
// In the Rust: `io/writer/line/record.rs` and below.
//
// Laid over a buffer, counted, or kept nowhere, the line is the same walk over the sheet, which tells as well whether the sheet has the
// form. Each byte of the sheet is read a fixed number of times.
//
// Proved: what is put is the line of specs/, and of a sheet that has not the form nothing is put. Assumes nothing.
#![tactic(auto)]

mod line;

pub use line::{count_line, is_form, put_line};
