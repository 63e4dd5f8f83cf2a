// A text as it goes on the sheet.
ghost use Rattle.std.specs.Prelude.{◌≡◌, ◌≤◌, length};
ghost use Rattle.read_judge.specs.Judge.{score_of_token};

// The score as it goes on the sheet: no text for `.`, else the raw token.
pub fn score<'a>(token: &'a [u8]) -> &'a [u8]
    ensures text { result.now ≡ score_of_token token.now }
    ensures short { length result.now ≤ length token.now }
{
    if base_words::is_dot(token) {
        return base_scan::part(token, 0, 0);
    }
    token
}
