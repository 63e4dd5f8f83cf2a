// Unfolds the line of a record into a field sheet in a lent buffer, and start, end, strand and phase.
//
// The line is taken as a record without looking at its kind.
//
// Proved: the answer and the whole buffer are those of specs/, refusals in the order of RULES 11.2; a refused line changes no byte. The
// line is admitted before the first byte is laid, and its sheet measured where it might not fit; no attribute or value is read more than a
// fixed number of times. Assumes nothing.
#![tactic(auto)]

mod lay;

pub use lay::unfold;
