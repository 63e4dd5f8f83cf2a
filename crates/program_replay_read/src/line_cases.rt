// Cases of lines: splitting, kind, comment and directive.
use base_scan::Place;
use program_replay_words::show;
use read_kind::{KeyValue, Kind};
use read_lines::Cursor;

// L TEXT: each line, and a dot
pub fn lines_of(text: &[u8]) {
    let mut cursor = Cursor::new();
    while let Some((place, next)) = read_lines::next_line(text, cursor) {
        show::text(text, place);
        cursor = next;
    }
    show::done()
}

// K LINE: directive, comment or record
pub fn kind(text: &[u8]) {
    match read_kind::kind_of(text) {
        Kind::Directive => show::word(b"directive"),
        Kind::Comment => show::word(b"comment"),
        Kind::Record => show::word(b"record"),
    }
}

fn text_or_none(line: &[u8], place: Option<Place>) {
    match place {
        Some(place) => show::text(line, place),
        None => show::word(b"none"),
    }
}

// C LINE: a comment's text
pub fn comment(text: &[u8]) {
    text_or_none(text, read_kind::comment_of(text))
}

// D LINE: key and value of a directive
pub fn directive(text: &[u8]) {
    match read_kind::directive_of(text) {
        Some(KeyValue { key, value }) => {
            show::text(text, key);
            text_or_none(text, value)
        }
        None => show::word(b"none"),
    }
}
