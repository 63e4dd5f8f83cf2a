// Defines percent coding by RFC 3986, over any set of bytes that are escaped, and has its laws.
//
// There is no code: the crates `percent_sets`, `percent_decode` and `percent_encode` have it.
//
// Proved: a text decoded is no longer than it was, and the same where it is as long; a byte's escape is decoded to the byte, and holds the
// percent sign and hex digits alone. What holds of a text that was encoded stands in `percent_coder`. Assumes nothing.
#![tactic(auto)]
