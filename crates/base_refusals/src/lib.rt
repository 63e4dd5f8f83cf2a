// Names each reason to refuse, and gives its number (RULES 10).
//
// Refusal 22, a buffer that is too short, carries the length needed, so it is no case here: `base_buffer` has it.
//
// Proved: each reason has its own number. Assumes nothing.
#![tactic(auto)]

ghost use Rattle.std.specs.Prelude.{◌≡◌};
ghost use Rattle.base_refusals.specs.Refusal.{number};

#[derive(Clone, Copy, Debug, PartialEq, Eq)]
pub enum Refusal {
    // The line has fewer than eight tabs, the bounds are not its own, or there is no such column.
    Columns = 1,
    // No position, or a position of zero.
    Position = 2,
    // No strand.
    Strand = 3,
    // No phase.
    Phase = 4,
    // Text is left in column 9 without `=`.
    Attribute = 5,
    // The text of a version, a region or a build is empty.
    Empty = 6,
    // The version's major part is no number.
    Major = 7,
    // Its minor part is no number.
    Minor = 8,
    // Its patch is no number, or stands without a minor part.
    Patch = 9,
    RegionNameMissing = 10,
    RegionStartMissing = 11,
    // The region's start is no position.
    RegionStart = 12,
    RegionEndMissing = 13,
    // The region's end is no position.
    RegionEnd = 14,
    BuildSourceMissing = 15,
    BuildNameMissing = 16,
    // No score token.
    Score = 17,
    // The type is `CDS`, and there is no phase.
    PhaseMissing = 18,
    // The directive's key has white space.
    Key = 19,
    // A text that would not read back.
    Text = 20,
    // A typed value under another directive's key.
    ValueKey = 21,
    // Not of the sheet's form.
    Sheet = 23,
    // The line or the text is too long.
    TooLong = 24,
    // The line has more than 65,536 bytes.
    LineTooLong = 25,
    // The lengths add up to more than 18446744073709551615.
    Sum = 26,
    // The hold has not 65,536 bytes, or the state says that it holds more.
    Hold = 34,
}

impl Refusal {
    // The number of the reason, from 1 on: `Refusal::Strand.number()` is 3.
    pub fn number(self) -> u32
        ensures { result ≡ number self }
    {
        self as u32
    }
}
