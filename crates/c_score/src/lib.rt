// Gives C the score of a record: where its token stands.
//
// It stands alone, so that the check of bounds is compiled into it.
//
// Proved: the struct is the library's definition of the answer, by one definition that gives each case its number and place (RULES 10,
// 16). The function takes any bytes and numbers. Assumes nothing.
#![tactic(auto)]

ghost use Rattle.std.specs.Prelude.{◌≡◌};
ghost use Rattle.read_fields.specs.Fields.{score_at};
ghost use Rattle.c_answers.specs.Answers.{bounds_of_c};
ghost use Rattle.c_score.specs.Score.{c_score};

use c_answers::Gff3Bounds;

#[repr(C)]
#[derive(Clone, Copy)]
pub struct Gff3ScoreText {
    pub refused: u64,
    pub missing: u64,
    pub start: usize,
    pub end: usize,
}

// Column 6. Refusals 1, 17.
#[unsafe(no_mangle)]
pub extern "C" fn gff3_score(line: &[u8], bounds: Gff3Bounds) -> Gff3ScoreText
    ensures { result ≡ c_score (score_at line.now (bounds_of_c bounds)) }
{
    match read_fields::score_at(line, c_answers::bounds_in(bounds)) {
        Ok(None) => Gff3ScoreText {
            refused: 0,
            missing: 1,
            start: 0,
            end: 0,
        },
        Ok(Some(place)) => Gff3ScoreText {
            refused: 0,
            missing: 0,
            start: place.start,
            end: place.end,
        },
        Err(r) => Gff3ScoreText {
            refused: r.number() as u64,
            missing: 0,
            start: 0,
            end: 0,
        },
    }
}
