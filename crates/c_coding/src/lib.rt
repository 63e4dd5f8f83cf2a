// Gives C percent coding, both ways, and the reader of a position.
//
// Proved: each struct is the library's definition of the answer, by one definition for each enum, which gives each case its numbers and
// places (RULES 10, 16). Every function takes any bytes and numbers. Assumes nothing.
#![tactic(auto)]

ghost use Rattle.std.specs.Prelude.{◌≡◌, []};
ghost use Rattle.percent_coding.specs.Percent.{decoded, encoded};
ghost use Rattle.percent_sets.specs.Sets.{escapes};
ghost use Rattle.percent_encode.specs.Encode.{encode_reasons};
ghost use Rattle.read_tokens.specs.Tokens.{position_of};
ghost use Rattle.c_answers.specs.Answers.{c_position, CWrote};
ghost use Rattle.c_coding.specs.Coding.{set_of_c};

use c_answers::{Gff3Number, Gff3Written};
use percent_sets::Set;

// A text, decoded into a lent buffer. Refusal 22.
#[unsafe(no_mangle)]
pub extern "C" fn gff3_decode(text: &[u8], out: &mut [u8]) -> Gff3Written
    ensures { CWrote [] (decoded text.now) out.old out.new result }
{
    c_answers::written_of(percent_decode::decode(text, out))
}

// Sets by their numbers; another number counts as 1, whose set escapes most.
fn set_of(set: u32) -> Set
    ensures { result ≡ set_of_c set }
{
    match set {
        2 => Set::Column,
        3 => Set::Attribute,
        _ => Set::Name,
    }
}

// A text, encoded into a lent buffer. Refusals 24, 22.
#[unsafe(no_mangle)]
pub extern "C" fn gff3_encode(set: u32, text: &[u8], out: &mut [u8]) -> Gff3Written
    ensures { CWrote (encode_reasons text.now)
        (encoded (escapes (set_of_c set)) text.now) out.old out.new result }
{
    c_answers::written_of(percent_encode::encode(set_of(set), text, out))
}

// A position, as columns 4 and 5 have it. Refusal 2.
#[unsafe(no_mangle)]
pub extern "C" fn gff3_position(text: &[u8]) -> Gff3Number
    ensures { result ≡ c_position (position_of text.now) }
{
    c_answers::position_of(read_tokens::position_of(text))
}
