// Exports the C functions of `c_unfold`.
//
// Each calls the function of its name there and promises the same, word for word. Assumes nothing.
#![tactic(auto)]

ghost use Rattle.std.specs.Prelude.{◌≡◌};
ghost use Rattle.read_judge.specs.Judge.{judged};
ghost use Rattle.c_unfold.specs.Sheet.{c_judged, CUnfolds};

use c_unfold::Gff3Unfolded;

#[unsafe(no_mangle)]
pub extern "C" fn gff3_judge(line: &[u8]) -> Gff3Unfolded
    ensures { result ≡ c_judged (judged line.now) }
{
    c_unfold::gff3_judge(line)
}

#[unsafe(no_mangle)]
pub extern "C" fn gff3_unfold(line: &[u8], sheet: &mut [u8]) -> Gff3Unfolded
    ensures { CUnfolds line.now sheet.old sheet.new result }
{
    c_unfold::gff3_unfold(line, sheet)
}
