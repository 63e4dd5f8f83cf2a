// Proves that a record that was written is unfolded again, into the same sheet and numbers.
//
// There is no function here, only laws that tie the promise of writing to that of unfolding.
//
// Proved: a record that the writer accepts is one line, of the kind record, short enough to unfold, and unfolding it gives the same sheet
// and numbers. A line that unfolds is written again so, from its own sheet and numbers, or refused by 24 or 18 alone. Assumes nothing.
#![tactic(auto)]
