// Counts a text for the morning's sheet: its records, directives, comments and refused lines, and the records' lengths.
//
// One whole text goes in. The report has sixty-four counts of lengths, one for each power of two, beside the totals. Lines come from
// `read_lines`, and each is what `read_verdict` finds it to be.
//
// Proved: the report is the fold of specs/ over the lines of the text. Records, directives, comments and refused lines add up to the
// lines handed out, the sixty-four and the reversed ones to the records; the sum of lengths is exact, and no count can wrap
// (proofs/SumLaws.antt). Assumes nothing.
#![tactic(auto)]

mod add;
mod morning;
mod totals;

pub use morning::report_of;
pub use totals::{Report, Totals};
