// Exports the C functions of `c_coding`.
//
// Each calls the function of its name there and promises the same, word for word. Assumes nothing.
#![tactic(auto)]

ghost use Rattle.std.specs.Prelude.{◌≡◌, []};
ghost use Rattle.percent_coding.specs.Percent.{decoded, encoded};
ghost use Rattle.percent_sets.specs.Sets.{escapes};
ghost use Rattle.percent_encode.specs.Encode.{encode_reasons};
ghost use Rattle.read_tokens.specs.Tokens.{position_of};
ghost use Rattle.c_answers.specs.Answers.{c_position, CWrote};
ghost use Rattle.c_coding.specs.Coding.{set_of_c};

use c_answers::{Gff3Number, Gff3Written};

#[unsafe(no_mangle)]
pub extern "C" fn gff3_decode(text: &[u8], out: &mut [u8]) -> Gff3Written
    ensures { CWrote [] (decoded text.now) out.old out.new result }
{
    c_coding::gff3_decode(text, out)
}

#[unsafe(no_mangle)]
pub extern "C" fn gff3_encode(set: u32, text: &[u8], out: &mut [u8]) -> Gff3Written
    ensures { CWrote (encode_reasons text.now)
        (encoded (escapes (set_of_c set)) text.now) out.old out.new result }
{
    c_coding::gff3_encode(set, text, out)
}

#[unsafe(no_mangle)]
pub extern "C" fn gff3_position(text: &[u8]) -> Gff3Number
    ensures { result ≡ c_position (position_of text.now) }
{
    c_coding::gff3_position(text)
}
