// Proves that lines which damage to one stretch of a text does not touch read back, for whatever is written line by line.
//
// There is no function here. specs/Survival.antt says it of items of any kind and any reading by lines; promise_demands says for which items
// and which reading it is demanded. Assumes nothing.
#![tactic(auto)]
