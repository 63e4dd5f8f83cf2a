// Exports the C functions of `c_score`.
//
// Each calls the function of its name there and promises the same, word for word. Assumes nothing.
#![tactic(auto)]

ghost use Rattle.std.specs.Prelude.{◌≡◌};
ghost use Rattle.read_fields.specs.Fields.{score_at};
ghost use Rattle.c_answers.specs.Answers.{bounds_of_c};
ghost use Rattle.c_score.specs.Score.{c_score};

use c_answers::Gff3Bounds;
use c_score::Gff3ScoreText;

#[unsafe(no_mangle)]
pub extern "C" fn gff3_score(line: &[u8], bounds: Gff3Bounds) -> Gff3ScoreText
    ensures { result ≡ c_score (score_at line.now (bounds_of_c bounds)) }
{
    c_score::gff3_score(line, bounds)
}
