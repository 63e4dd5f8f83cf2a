// States the three demands on the library as a whole, proves them, and has the samples as one list.
//
// The demands are those of RULES 15, each stated over the definitions that the functions' promises cite. There is no function here but for
// callers of the three writers, which nothing calls. Start with specs/Demand.antt. Assumes nothing.
#![tactic(auto)]

mod callers;
