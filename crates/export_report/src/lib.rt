// Exports the C functions of `c_report`.
//
// Each calls the function of its name there and promises the same, word for word. Assumes nothing.
#![tactic(auto)]

ghost use Rattle.std.specs.Prelude.{◌≡◌};
ghost use Rattle.read_report.specs.Report.{morning};
ghost use Rattle.c_report.specs.Report.{c_morning};

use c_report::Gff3Morning;

#[unsafe(no_mangle)]
pub extern "C" fn gff3_report(text: &[u8]) -> Gff3Morning
    ensures { result ≡ c_morning (morning text.now) }
{
    c_report::gff3_report(text)
}
