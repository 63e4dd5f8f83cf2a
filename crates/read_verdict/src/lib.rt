// Says what a line is found to be: a directive, a comment, a record with its numbers, or refused, and why.
//
// A line of kind record is judged as unfolding it with room enough would judge it, without a buffer. Directives and comments are not
// judged, however long they are.
//
// Proved: the answer is the definition of specs/; the numbers of a record are positions, and a refusal is one of seven
// (proofs/VerdictLaws.antt). Assumes nothing.
#![tactic(auto)]

ghost use Rattle.std.specs.Prelude.{◌≡◌};
ghost use Rattle.read_verdict.specs.Verdict.{verdict};

use base_refusals::Refusal;
use read_judge::Numbers;
use read_kind::Kind;

#[derive(Clone, Copy)]
pub enum Verdict {
    Directive,
    Comment,
    // Start, end, strand and phase.
    Record(Numbers),
    // 24, 1, 2, 17, 3, 4 or 5.
    Refused(Refusal),
}

// What a line is. Refusals, in order: 24, over 4,194,304 bytes; 1; 2 (start, then end); 17; 3; 4; 5.
pub fn verdict_of(line: &[u8]) -> Verdict
    ensures { result ≡ verdict line.now }
{
    match read_kind::kind_of(line) {
        Kind::Directive => Verdict::Directive,
        Kind::Comment => Verdict::Comment,
        Kind::Record => match read_judge::judge_numbers(line) {
            Ok(numbers) => Verdict::Record(numbers),
            Err(r) => Verdict::Refused(r),
        },
    }
}
