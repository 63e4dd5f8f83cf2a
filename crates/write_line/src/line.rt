// A record's line, put into any sink text by text, in the sheet's order. None is answered, and the rest left out, from where the sheet is
// not of the form.
ghost use Rattle.std.specs.Prelude.{◌≡◌, [], ◌∷◌, map, ◌≤◌, length, drop, Some, is_some};
ghost use Rattle.base_lists.specs.Bytes.{tab, comma, semicolon, equals};
ghost use Rattle.write_decimals.specs.Decimal.{decimal};
ghost use Rattle.percent_sets.specs.declared.Set.TheVariants.{Attribute};
ghost use Rattle.percent_coding.specs.Percent.{encoded};
ghost use Rattle.percent_sets.specs.Sets.{escapes};
ghost use Rattle.read_tokens.specs.Tokens.{strand_byte, phase_byte};
ghost use Rattle.read_attributes.specs.Written.{written, column};
ghost use Rattle.sheet_form.specs.Reader.{times, counted};
ghost use Rattle.sheet_form.specs.Sheet.{Sheet, section, read_attribute, read_sheet, sheet_read};
ghost use Rattle.sheet_form.specs.Inner.Past.{Passes};
ghost use Rattle.write_line.specs.Inner.Led.{led};
ghost use Rattle.write_line.specs.Record.{score_column, sheet_line, record_line, counted_line};

use base_sink::{Count, Nowhere, Sink};
use percent_encode::Coded;
use percent_sets::Set;

// The pieces of a walk are compiled into it, so that a walk that keeps nothing is a few steps for each count of the sheet.

// The section at `from`, encoded.
#[inline(always)]
fn put_text<S: Coded>(set: Set, sheet: &[u8], from: usize, sink: &mut S) -> Option<usize>
    ensures { Passes (λ t. S.took (encoded (escapes set) t) sink.old sink.new) sheet.now result (section (drop from sheet.now)) }
{
    let place = sheet_form::section_at(sheet, from)?;
    sink.encoded(set, base_scan::text(sheet, place));
    Some(place.end)
}

// The same behind a byte.
#[inline(always)]
fn put_led<S: Coded>(lead: u8, set: Set, sheet: &[u8], from: usize, sink: &mut S) -> Option<usize>
    ensures { Passes (λ t. S.took (lead ∷ encoded (escapes set) t) sink.old sink.new) sheet.now result (section (drop from sheet.now)) }
{
    sink.byte(lead);
    put_text(set, sheet, from, sink)
}

// The values of an attribute: `=` before the first, `,` before each other.
fn put_values<S: Coded>(sheet: &[u8], first: usize, count: usize, sink: &mut S) -> Option<usize>
    requires { first ≤ length sheet.now }
    ensures { Passes (λ vs. S.took (led equals comma (map (encoded (escapes Attribute)) vs)) sink.old sink.new)
        sheet.now result (times section count (drop first sheet.now)) }
{
    let mut from = first;
    let mut lead = b'=';
    for _ in 0..count {
        from = put_led(lead, Set::Attribute, sheet, from, sink)?;
        lead = b',';
    }
    Some(from)
}

// The attribute at `from`, behind a byte.
fn put_attribute<S: Coded>(lead: u8, sheet: &[u8], from: usize, sink: &mut S) -> Option<usize>
    ensures { Passes (λ a. S.took (lead ∷ written (encoded (escapes Attribute)) a) sink.old sink.new)
        sheet.now result (read_attribute (drop from sheet.now)) }
{
    let behind = put_led(lead, Set::Attribute, sheet, from, sink)?;
    let (count, first) = sheet_form::count_at(sheet, behind)?;
    if count == 0 {
        return None;
    }
    put_values(sheet, first, count, sink)
}

// The attributes: a tab before the first, `;` before each other.
fn put_attributes<S: Coded>(sheet: &[u8], first: usize, count: usize, sink: &mut S) -> Option<usize>
    requires { first ≤ length sheet.now }
    ensures { Passes (λ l. S.took (led tab semicolon (map (written (encoded (escapes Attribute))) l)) sink.old sink.new)
        sheet.now result (times read_attribute count (drop first sheet.now)) }
{
    let mut from = first;
    let mut lead = b'\t';
    for _ in 0..count {
        from = put_attribute(lead, sheet, from, sink)?;
        lead = b';';
    }
    Some(from)
}

// Column 9 and the tab before it.
fn put_column<S: Coded>(sheet: &[u8], from: usize, sink: &mut S) -> Option<usize>
    ensures { Passes (λ l. S.took (tab ∷ column (encoded (escapes Attribute)) l) sink.old sink.new)
        sheet.now result (counted read_attribute (drop from sheet.now)) }
{
    let (count, first) = sheet_form::count_at(sheet, from)?;
    if count == 0 {
        sink.text(b"\t.");
        return Some(first);
    }
    put_attributes(sheet, first, count, sink)
}

// A number behind a tab.
#[inline(always)]
fn put_number<S: Sink>(n: u64, sink: &mut S)
    ensures { S.took (tab ∷ decimal n) sink.old sink.new }
{
    sink.byte(b'\t');
    write_decimals::put_decimal(n, sink);
}

// A byte behind a tab.
#[inline(always)]
fn put_sign<S: Sink>(sign: u8, sink: &mut S)
    ensures { S.took (tab ∷ sign ∷ []) sink.old sink.new }
{
    sink.byte(b'\t');
    sink.byte(sign);
}

// A score, or `.` where there is none.
#[inline(always)]
fn put_token<S: Sink>(token: &[u8], sink: &mut S)
    ensures { S.took (score_column token.now) sink.old sink.new }
{
    if token.len() == 0 {
        sink.byte(b'.');
    } else {
        sink.text(token);
    }
}

// Column 6 and the tab before it.
#[inline(always)]
fn put_score<S: Sink>(sheet: &[u8], from: usize, sink: &mut S) -> Option<usize>
    ensures { Passes (λ t. S.took (tab ∷ score_column t) sink.old sink.new) sheet.now result (section (drop from sheet.now)) }
{
    let place = sheet_form::section_at(sheet, from)?;
    sink.byte(b'\t');
    put_token(base_scan::text(sheet, place), sink);
    Some(place.end)
}

// The nine columns.
fn put_columns<S: Coded>(
    sheet: &[u8],
    start: u64,
    end: u64,
    strand: u32,
    phase: u32,
    sink: &mut S,
) -> Option<usize>
    ensures { Passes (λ s. S.took (sheet_line (λ set. encoded (escapes set)) (Some s) start end strand phase) sink.old sink.new)
        sheet.now result (read_sheet sheet.now) }
{
    let source = put_text(Set::Name, sheet, 0, sink)?;
    let ty = put_led(b'\t', Set::Column, sheet, source, sink)?;
    let score = put_led(b'\t', Set::Column, sheet, ty, sink)?;
    put_number(start, sink);
    put_number(end, sink);
    let attributes = put_score(sheet, score, sink)?;
    put_sign(read_tokens::strand_byte(strand), sink);
    put_sign(read_tokens::phase_byte(phase), sink);
    put_column(sheet, attributes, sink)
}

// The line of a sheet and the numbers beside it, where the sheet has the form, which is answered. Of one that has not, some part of a
// line is put, or none.
fn put_as_far<S: Coded>(
    sheet: &[u8],
    start: u64,
    end: u64,
    strand: u32,
    phase: u32,
    sink: &mut S,
) -> bool
    ensures form { result ≡ is_some (sheet_read sheet.now) }
    ensures line { (s : Sheet) → sheet_read sheet.now ≡ Some s →
        S.took (record_line sheet.now start end strand phase) sink.old sink.new }
{
    match put_columns(sheet, start, end, strand, phase, sink) {
        Some(behind) => behind == sheet.len(),
        None => false,
    }
}

// Whether a sheet has the form. The texts are passed, and nothing is kept of them.
pub fn is_form(sheet: &[u8]) -> bool
    ensures { result ≡ is_some (sheet_read sheet.now) }
{
    put_as_far(sheet, 0, 0, 0, 0, &mut Nowhere)
}

// How long the line is, as far as a number goes, where the sheet has the form; else none. It is counted with positions of one digit, and
// how many more digits the positions have needs no walk over them.
pub fn count_line(sheet: &[u8], start: u64, end: u64, strand: u32, phase: u32) -> Option<usize>
    ensures { result ≡ counted_line sheet.now start end strand phase }
{
    let mut count = Count { bytes: 0 };
    if !put_as_far(sheet, 0, 0, strand, phase, &mut count) {
        return None;
    }
    let digits = write_decimals::decimal_len(start) + write_decimals::decimal_len(end);
    Some(count.bytes.saturating_add(digits - 2))
}

// Strand and phase stay numbers here and in the writers over it, which refuse one above 3 in its place among the reasons (RULES 11.3).
// Puts the line of a sheet and the numbers beside it into a sink, and answers whether the sheet has the form. Of one that has not, nothing
// is put.
pub fn put_line<S: Coded>(
    sheet: &[u8],
    start: u64,
    end: u64,
    strand: u32,
    phase: u32,
    sink: &mut S,
) -> bool
    ensures form { result ≡ is_some (sheet_read sheet.now) }
    ensures line { S.took (record_line sheet.now start end strand phase) sink.old sink.new }
{
    if !is_form(sheet) {
        return false;
    }
    put_as_far(sheet, start, end, strand, phase, sink)
}
