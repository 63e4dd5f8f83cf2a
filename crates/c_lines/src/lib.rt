// Gives C the lines of a text, their kinds, and what a comment or a directive holds.
//
// The C functions, which bindings/ declares for C and Rust, take numbers and slices and answer a `#[repr(C)]` struct of numbers. Each calls
// the library's function of the same purpose, and turns its answer into the struct.
//
// Proved: each struct is the library's definition of the answer, by one definition for each enum, which gives each case its numbers and
// places (RULES 10, 16); a cursor handed out is never beyond the text, and where a walk is done another call with it answers the same
// (proofs/CursorLaws.antt). Every function takes any bytes and numbers. Assumes nothing.
#![tactic(auto)]

ghost use Rattle.std.specs.Prelude.{◌≡◌};
ghost use Rattle.read_kind.specs.Kind.{kind, kind_number, comment_of, directive_of};
ghost use Rattle.c_lines.specs.Line.{c_next_line, c_comment, c_directive};

use read_kind::KeyValue;
use read_lines::Cursor;

#[repr(C)]
#[derive(Clone, Copy)]
pub struct Gff3Line {
    pub done: u64,
    pub start: usize,
    pub end: usize,
    pub next: usize,
}

#[repr(C)]
#[derive(Clone, Copy)]
pub struct Gff3CommentText {
    pub is: u64,
    pub start: usize,
    pub end: usize,
}

#[repr(C)]
#[derive(Clone, Copy)]
pub struct Gff3DirectiveText {
    pub is: u64,
    pub key_start: usize,
    pub key_end: usize,
    pub has_value: u64,
    pub value_start: usize,
    pub value_end: usize,
}

// The next line from `at` on, behind blank ones, and the cursor behind it; where no line is left, the text's end.
#[unsafe(no_mangle)]
pub extern "C" fn gff3_next_line(text: &[u8], at: usize) -> Gff3Line
    ensures { result ≡ c_next_line text.now at }
{
    match read_lines::next_line(text, Cursor { at }) {
        Some((place, cursor)) => Gff3Line {
            done: 0,
            start: place.start,
            end: place.end,
            next: cursor.at,
        },
        None => Gff3Line {
            done: 1,
            start: 0,
            end: 0,
            next: text.len(),
        },
    }
}

// 0 for a directive, 1 for a comment, 2 for a record.
#[unsafe(no_mangle)]
pub extern "C" fn gff3_kind(line: &[u8]) -> u32
    ensures { result ≡ kind_number (kind line.now) }
{
    read_kind::kind_of(line) as u32
}

// The text of a comment.
#[unsafe(no_mangle)]
pub extern "C" fn gff3_comment(line: &[u8]) -> Gff3CommentText
    ensures { result ≡ c_comment (comment_of line.now) }
{
    match read_kind::comment_of(line) {
        Some(place) => Gff3CommentText {
            is: 1,
            start: place.start,
            end: place.end,
        },
        None => Gff3CommentText {
            is: 0,
            start: 0,
            end: 0,
        },
    }
}

// The key and the value of a directive.
#[unsafe(no_mangle)]
pub extern "C" fn gff3_directive(line: &[u8]) -> Gff3DirectiveText
    ensures { result ≡ c_directive (directive_of line.now) }
{
    match read_kind::directive_of(line) {
        Some(
            KeyValue {
                key,
                value: Some(place),
            },
        ) => Gff3DirectiveText {
            is: 1,
            key_start: key.start,
            key_end: key.end,
            has_value: 1,
            value_start: place.start,
            value_end: place.end,
        },
        Some(KeyValue { key, value: None }) => Gff3DirectiveText {
            is: 1,
            key_start: key.start,
            key_end: key.end,
            has_value: 0,
            value_start: 0,
            value_end: 0,
        },
        None => Gff3DirectiveText {
            is: 0,
            key_start: 0,
            key_end: 0,
            has_value: 0,
            value_start: 0,
            value_end: 0,
        },
    }
}
