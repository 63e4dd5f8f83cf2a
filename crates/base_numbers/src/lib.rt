// Gives the smaller of two numbers, and one of two numbers by a test.
//
// Proved: each answer, for all numbers. Assumes nothing.
#![tactic(auto)]

ghost use Rattle.std.specs.Prelude.{◌≡◌, min, cond};

// The smaller of two.
pub fn least(a: usize, b: usize) -> usize
    ensures { result ≡ min a b }
{
    a.min(b)
}

// The number where the test holds, and else the other: a list of reasons is asked from its last to its first, so that an earlier one
// goes before those that were asked before it.
pub fn either(test: bool, number: u32, other: u32) -> u32
    ensures { result ≡ cond test number other }
{
    if test { number } else { other }
}
