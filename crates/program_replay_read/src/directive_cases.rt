// Cases of the typed values of directives.
use program_replay_words::show;
use read_directives::{GenomeBuild, SequenceRegion};
use read_version::GffVersion;

fn part(answer: Option<u32>) {
    match answer {
        Some(n) => show::number(n as u64),
        None => show::word(b"none"),
    }
}

fn parts(v: GffVersion) {
    show::number(v.major as u64);
    part(v.minor);
    part(v.patch)
}

// 1 TEXT: major, minor, patch
pub fn version(text: &[u8]) {
    match read_version::parse_gff_version(text) {
        Ok(v) => parts(v),
        Err(refusal) => show::refused(refusal.number()),
    }
}

fn bounds(s: &[u8], r: SequenceRegion) {
    show::text(s, r.name);
    show::number(r.start);
    show::number(r.end)
}

// 2 TEXT: name, start, end
pub fn region(text: &[u8]) {
    match read_directives::parse_sequence_region(text) {
        Ok(r) => bounds(text, r),
        Err(refusal) => show::refused(refusal.number()),
    }
}

fn names(s: &[u8], b: GenomeBuild) {
    show::text(s, b.source);
    show::text(s, b.name)
}

// 3 TEXT: source, name
pub fn build(text: &[u8]) {
    match read_directives::parse_genome_build(text) {
        Ok(b) => names(text, b),
        Err(refusal) => show::refused(refusal.number()),
    }
}
