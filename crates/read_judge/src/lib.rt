// Judges a line as unfolding it would, without a buffer: its refusal, or its numbers and its sheet's length.
//
// The line is taken as a record without looking at its kind. Every refusal of unfolding is answered but 22, and else start, end, strand and
// phase, and the length of the sheet. `survey` answers besides what laying the sheet takes; `admit` and `judge_numbers` leave the length
// out.
//
// Proved: the answers are those of specs/, refusals in the order of RULES 11.2. The line is indexed once, and no attribute or value is read
// more than a fixed number of times. Assumes nothing.
#![tactic(auto)]

mod admitting;
mod judging;
mod texts;

pub use admitting::{admit, judge_numbers};
pub use judging::{Numbers, judge, survey};
pub use texts::score;
