// One line more.
ghost use Rattle.std.specs.Prelude.{◌≡◌, ◌<◌};
ghost use Rattle.read_verdict.specs.declared.Verdict.TheVariants.{Record, Refused};
ghost use Rattle.read_verdict.specs.Verdict.{Sound};
ghost use Rattle.read_report.specs.Report.{power, length_of, add_totals};
ghost use Rattle.read_report.specs.Inner.Room.{Room};

use super::totals::Totals;
use base_refusals::Refusal;
use read_judge::Numbers;
use read_verdict::Verdict;

// The power of two that a length lies in.
pub(crate) fn power_of(length: u64) -> usize
    requires { 0 < length }
    ensures { (result ≡ power length) × (result < 64) }
{
    length.ilog2() as usize
}

// What a line adds to the sum: the length of a record that is not reversed, which is at least 1, and else nothing.
pub(crate) fn length_of(verdict: Verdict) -> u64
    requires { Sound verdict }
    ensures { result ≡ length_of verdict }
{
    match verdict {
        Verdict::Record(numbers) => {
            if numbers.end < numbers.start {
                return 0;
            }
            numbers.end - numbers.start + 1
        }
        Verdict::Directive | Verdict::Comment | Verdict::Refused(_) => 0,
    }
}

fn add_record(totals: Totals, numbers: Numbers) -> Totals
    requires { Room totals (Record numbers) }
    ensures { result ≡ add_totals totals (Record numbers) }
{
    let mut out = totals;
    out.records += 1;
    if numbers.end < numbers.start {
        out.reversed += 1;
        return out;
    }
    out.sum += numbers.end - numbers.start + 1;
    out
}

fn add_refused(totals: Totals, refusal: Refusal) -> Totals
    requires { Room totals (Refused refusal) }
    ensures { result ≡ add_totals totals (Refused refusal) }
{
    let mut out = totals;
    match refusal {
        Refusal::TooLong => out.refused_too_long += 1,
        Refusal::Columns => out.refused_columns += 1,
        Refusal::Position => out.refused_position += 1,
        Refusal::Score => out.refused_score += 1,
        Refusal::Strand => out.refused_strand += 1,
        Refusal::Phase => out.refused_phase += 1,
        Refusal::Attribute => out.refused_attribute += 1,
        _ => {}
    }
    out
}

// A line counted in the totals.
pub(crate) fn add_totals(totals: Totals, verdict: Verdict) -> Totals
    requires { Room totals verdict }
    ensures { result ≡ add_totals totals verdict }
{
    let mut out = totals;
    match verdict {
        Verdict::Directive => out.directives += 1,
        Verdict::Comment => out.comments += 1,
        Verdict::Record(numbers) => return add_record(totals, numbers),
        Verdict::Refused(refusal) => return add_refused(totals, refusal),
    }
    out
}
