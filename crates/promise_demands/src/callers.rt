// A caller of each writer, with any arguments: where the writer is done, its item is one that demand 3 calls accepted. What the types of
// parameters say (texts are bytes, numbers have so many bits) is known in the proof of a function and nowhere else, so each is a function.
// Nothing calls them.
ghost use Rattle.promise_demands.specs.Item.{feature, directive, comment, Accepts};

use base_buffer::WriteError;
use write_directive::Value;

fn accept_record(
    sheet: &[u8],
    start: u64,
    end: u64,
    strand: u32,
    phase: u32,
    out: &mut [u8],
) -> Result<usize, WriteError>
    ensures { Accepts (feature sheet.now start end strand phase) out.old out.new result }
{
    write_record::write_record(sheet, start, end, strand, phase, out)
}

fn accept_directive(
    key: &[u8],
    value: Value,
    first: &[u8],
    second: &[u8],
    out: &mut [u8],
) -> Result<usize, WriteError>
    ensures { Accepts (directive key.now value first.now second.now)
        out.old out.new result }
{
    write_directive::write_directive(key, value, first, second, out)
}

fn accept_comment(text: &[u8], out: &mut [u8]) -> Result<usize, WriteError>
    ensures { Accepts (comment text.now) out.old out.new result }
{
    write_comment::write_comment(text, out)
}
