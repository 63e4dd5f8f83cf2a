// Gives C the morning's report of a text.
//
// Proved: the struct is the library's report, field by field, with the number of the refusal beside it (RULES 16, 17). The function takes
// any bytes. Assumes nothing.
#![tactic(auto)]

ghost use Rattle.std.specs.Prelude.{◌≡◌};
ghost use Rattle.read_report.specs.Report.{morning};
ghost use Rattle.c_report.specs.Report.{c_counts, c_morning};

use base_refusals::Refusal;
use read_report::{Report, Totals};

#[repr(C)]
#[derive(Clone, Copy)]
pub struct Gff3Morning {
    pub refused: u64,
    pub records: u64,
    pub directives: u64,
    pub comments: u64,
    pub reversed: u64,
    pub sum: u64,
    pub refused_too_long: u64,
    pub refused_columns: u64,
    pub refused_position: u64,
    pub refused_score: u64,
    pub refused_strand: u64,
    pub refused_phase: u64,
    pub refused_attribute: u64,
    pub lengths: [u64; 64],
}

// A report, and the number of the refusal beside it, or 0.
fn counts_of(refused: u32, report: Report) -> Gff3Morning
    ensures { result ≡ c_counts refused report }
{
    let Report { lengths, totals } = report;
    Gff3Morning {
        refused: refused as u64,
        records: totals.records,
        directives: totals.directives,
        comments: totals.comments,
        reversed: totals.reversed,
        sum: totals.sum,
        refused_too_long: totals.refused_too_long,
        refused_columns: totals.refused_columns,
        refused_position: totals.refused_position,
        refused_score: totals.refused_score,
        refused_strand: totals.refused_strand,
        refused_phase: totals.refused_phase,
        refused_attribute: totals.refused_attribute,
        lengths,
    }
}

fn report_in(answer: Result<Report, Refusal>) -> Gff3Morning
    ensures { result ≡ c_morning answer }
{
    match answer {
        Ok(report) => counts_of(0, report),
        Err(refusal) => counts_of(
            refusal.number(),
            Report {
                lengths: [0; 64],
                totals: Totals::default(),
            },
        ),
    }
}

// The report of a text. Refusal 26, and then every count is 0.
#[unsafe(no_mangle)]
pub extern "C" fn gff3_report(text: &[u8]) -> Gff3Morning
    ensures { result ≡ c_morning (morning text.now) }
{
    report_in(read_report::report_of(text))
}
