// Exports the C functions of `c_record`.
//
// Each calls the function of its name there and promises the same, word for word. Assumes nothing.
#![tactic(auto)]

ghost use Rattle.std.specs.Prelude.{◌≡◌};
ghost use Rattle.read_fields.specs.Fields.{record_of};
ghost use Rattle.c_record.specs.Record.{c_record};

use c_record::Gff3RecordFields;

#[unsafe(no_mangle)]
pub extern "C" fn gff3_record(line: &[u8]) -> Gff3RecordFields
    ensures { result ≡ c_record (record_of line.now) }
{
    c_record::gff3_record(line)
}
