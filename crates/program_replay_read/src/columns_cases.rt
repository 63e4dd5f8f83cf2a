// Cases of records: bounds and fields.
use base_refusals::Refusal;
use base_scan::Place;
use program_replay_words::show;
use read_columns::{Bounds, Column};
use read_tokens::{Phase, Strand};

fn eight(b: Bounds) {
    show::number(b.reference_sequence_name_end as u64);
    show::number(b.source_end as u64);
    show::number(b.type_end as u64);
    show::number(b.start_end as u64);
    show::number(b.end_end as u64);
    show::number(b.score_end as u64);
    show::number(b.strand_end as u64);
    show::number(b.phase_end as u64)
}

// B LINE: the eight bounds
pub fn bounds(text: &[u8]) {
    match read_columns::index(text) {
        Ok(b) => eight(b),
        Err(r) => show::refused(r.number()),
    }
}

fn position(answer: Result<u64, Refusal>) {
    match answer {
        Ok(n) => show::number(n),
        Err(r) => show::refused(r.number()),
    }
}

fn score(s: &[u8], answer: Result<Option<Place>, Refusal>) {
    match answer {
        Ok(None) => show::word(b"."),
        Ok(Some(place)) => show::text(s, place),
        Err(r) => show::refused(r.number()),
    }
}

fn strand(answer: Result<Strand, Refusal>) {
    match answer {
        Ok(which) => show::number(read_tokens::strand_number(which) as u64),
        Err(r) => show::refused(r.number()),
    }
}

fn phase(answer: Result<Phase, Refusal>) {
    match answer {
        Ok(which) => show::number(read_tokens::phase_number(which) as u64),
        Err(r) => show::refused(r.number()),
    }
}

fn raw(s: &[u8], answer: Result<Place, Refusal>) {
    match answer {
        Ok(place) => show::text(s, place),
        Err(r) => show::refused(r.number()),
    }
}

// Columns 1 to 3, decoded into a buffer with room enough.
fn texts(s: &[u8], b: Bounds) {
    let mut name = [170u8; 16];
    let mut source = [170u8; 16];
    let mut ty = [170u8; 16];
    let first = read_fields::reference_sequence_name(s, b, &mut name);
    show::written(first, &name);
    let second = read_fields::source(s, b, &mut source);
    show::written(second, &source);
    let third = read_fields::ty(s, b, &mut ty);
    show::written(third, &ty)
}

fn fields(s: &[u8], b: Bounds) {
    texts(s, b);
    position(read_fields::start_at(s, b));
    position(read_fields::end_at(s, b));
    score(s, read_fields::score_at(s, b));
    strand(read_fields::strand_at(s, b));
    phase(read_fields::phase_at(s, b));
    raw(s, read_columns::column_at(s, b, Column::Attributes))
}

// R LINE: each field in order; with a word more, at bounds that are another line's
pub fn record(text: &[u8], other: &[u8]) {
    match read_columns::index(other) {
        Ok(b) => fields(text, b),
        Err(r) => show::refused(r.number()),
    }
}
