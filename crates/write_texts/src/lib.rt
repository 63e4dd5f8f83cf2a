// Tells, before a text is written, whether it is too long, has a line end or white space, or is no word.
//
// Proved: each answer, for every text. Assumes nothing.
#![tactic(auto)]

ghost use Rattle.std.specs.Prelude.{◌≡◌};
ghost use Rattle.base_words.specs.Word.{is_space};
ghost use Rattle.write_texts.specs.Text.{holds, long, breaks, unfit};

// Longer than a text that is written may be.
pub fn is_long(s: &[u8]) -> bool
    ensures { result ≡ long s.now }
{
    base_buffer::MOST_TEXT < s.len()
}

// A carriage return or a line feed.
pub fn breaks(s: &[u8]) -> bool
    ensures { result ≡ breaks s.now }
{
    (base_scan::find(s, 0, b'\r') < s.len()) | (base_scan::find(s, 0, b'\n') < s.len())
}

// ASCII white space.
pub fn is_spaced(s: &[u8]) -> bool
    ensures { result ≡ holds is_space s.now }
{
    base_words::find_space(s, 0) < s.len()
}

// No word: empty, or with white space.
pub fn is_unfit(s: &[u8]) -> bool
    ensures { result ≡ unfit s.now }
{
    (s.len() == 0) | is_spaced(s)
}
