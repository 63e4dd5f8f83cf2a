// Judges a record before it is written, without a buffer: its refusal, or the length of its line.
//
// The record is its sheet and the numbers beside it. Every refusal of the writer is answered but 22; `refusal` leaves the length out.
//
// Proved: the answer is that of specs/, refusals in the order of RULES 11.3. Each byte of the sheet is read a fixed number of times.
// Assumes nothing.
#![tactic(auto)]

mod measuring;
mod reasons;

pub use measuring::{measure, refusal};
pub use reasons::fault;
