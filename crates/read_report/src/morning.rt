// The lines of a text, counted one after the other.
ghost use Rattle.std.specs.Prelude.{◌≡◌};
ghost use Rattle.read_report.specs.Report.{morning};

use super::totals::{Report, Totals};
use base_refusals::Refusal;
use read_lines::Cursor;

// The report of a text. Refused by 26 where the sum of lengths passes 18446744073709551615.
pub fn report_of(text: &[u8]) -> Result<Report, Refusal>
    ensures { result ≡ morning text.now }
{
    let mut lengths = [0u64; 64];
    let mut totals = Totals::default();
    let mut cursor = Cursor::new();
    while let Some((place, next)) = read_lines::next_line(text, cursor) {
        let verdict = read_verdict::verdict_of(base_scan::text(text, place));
        let length = super::add::length_of(verdict);
        if u64::MAX - totals.sum < length {
            return Err(Refusal::Sum);
        }
        if 0 < length {
            lengths[super::add::power_of(length)] += 1;
        }
        totals = super::add::add_totals(totals, verdict);
        cursor = next;
    }
    Ok(Report { lengths, totals })
}
