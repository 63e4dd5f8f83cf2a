// Says what the writers and the round trip ask of an encoder, whichever bytes it escapes, and has its laws.
//
// There is no code.
//
// Proved: whatever writes each byte as itself or as its escape, and the percent sign as its escape, has these laws; so has the encoder over
// any set of bytes that holds the percent sign. Assumes nothing.
#![tactic(auto)]
