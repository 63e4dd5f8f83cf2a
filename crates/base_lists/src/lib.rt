// Names the bytes and limits that the other crates speak of, and has the laws of lists that they share.
//
// Definitions stand in specs/, laws in proofs/. There is no code.
#![tactic(auto)]
