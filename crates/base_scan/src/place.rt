// Where a text stands in a longer one: a part is handed out as a place, which C can be given, and read by `text`.
ghost use Rattle.std.specs.Prelude.{◌≡◌};
ghost use Rattle.base_scan.specs.Part.{part, text_at};

// From `start`, before `end`.
#[derive(Clone, Copy)]
pub struct Place {
    pub start: usize,
    pub end: usize,
}

// What stands from a on, before e. A place past the end counts as at the end, so every pair of numbers has a part.
pub fn part<'a>(s: &'a [u8], a: usize, e: usize) -> &'a [u8]
    ensures { result.now ≡ part a e s.now }
{
    if e <= s.len() {
        if a <= e {
            return &s[a..e];
        }
        return &s[..0];
    }
    if a <= s.len() {
        return &s[a..];
    }
    &s[..0]
}

// What stands at a place.
pub fn text<'a>(s: &'a [u8], place: Place) -> &'a [u8]
    ensures { result.now ≡ text_at place s.now }
{
    part(s, place.start, place.end)
}
