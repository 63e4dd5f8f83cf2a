// Gives C the typed values of the directives `gff-version`, `sequence-region` and `genome-build`.
//
// Proved: each struct is the library's definition of the answer, by one definition for each enum, which gives each case its numbers and
// places (RULES 10, 16). Every function takes any bytes and numbers. Assumes nothing.
#![tactic(auto)]

ghost use Rattle.std.specs.Prelude.{◌≡◌};
ghost use Rattle.read_directives.specs.GenomeBuild as build;
ghost use Rattle.read_version.specs.GffVersion as version;
ghost use Rattle.read_directives.specs.SequenceRegion as region;
ghost use Rattle.c_directives.specs.Directive.{c_parts, c_version, c_region, c_build};

#[repr(C)]
#[derive(Clone, Copy)]
pub struct Gff3VersionValue {
    pub refused: u64,
    pub parts: u64,
    pub major: u64,
    pub minor: u64,
    pub patch: u64,
}

#[repr(C)]
#[derive(Clone, Copy)]
pub struct Gff3RegionValue {
    pub refused: u64,
    pub name_start: usize,
    pub name_end: usize,
    pub start: u64,
    pub end: u64,
}

#[repr(C)]
#[derive(Clone, Copy)]
pub struct Gff3BuildValue {
    pub refused: u64,
    pub source_start: usize,
    pub source_end: usize,
    pub name_start: usize,
    pub name_end: usize,
}

// How many parts there are, and each; a part that is absent is 0.
fn parts_of(major: u32, minor: Option<u32>, patch: Option<u32>) -> Gff3VersionValue
    ensures { result ≡ c_parts 0 major minor patch }
{
    match (minor, patch) {
        (None, _) => Gff3VersionValue {
            refused: 0,
            parts: 1,
            major: major as u64,
            minor: 0,
            patch: 0,
        },
        (Some(minor), None) => Gff3VersionValue {
            refused: 0,
            parts: 2,
            major: major as u64,
            minor: minor as u64,
            patch: 0,
        },
        (Some(minor), Some(patch)) => Gff3VersionValue {
            refused: 0,
            parts: 3,
            major: major as u64,
            minor: minor as u64,
            patch: patch as u64,
        },
    }
}

// The value of `gff-version`. Refusals 6 to 9.
#[unsafe(no_mangle)]
pub extern "C" fn gff3_version(text: &[u8]) -> Gff3VersionValue
    ensures { result ≡ c_version (version.version_of text.now) }
{
    match read_version::parse_gff_version(text) {
        Ok(version) => parts_of(version.major, version.minor, version.patch),
        Err(refusal) => Gff3VersionValue {
            refused: refusal.number() as u64,
            parts: 0,
            major: 0,
            minor: 0,
            patch: 0,
        },
    }
}

// The value of `sequence-region`. Refusals 6, 10 to 14.
#[unsafe(no_mangle)]
pub extern "C" fn gff3_region(text: &[u8]) -> Gff3RegionValue
    ensures { result ≡ c_region (region.region_of text.now) }
{
    match read_directives::parse_sequence_region(text) {
        Ok(region) => Gff3RegionValue {
            refused: 0,
            name_start: region.name.start,
            name_end: region.name.end,
            start: region.start,
            end: region.end,
        },
        Err(refusal) => Gff3RegionValue {
            refused: refusal.number() as u64,
            name_start: 0,
            name_end: 0,
            start: 0,
            end: 0,
        },
    }
}

// The value of `genome-build`. Refusals 6, 15, 16.
#[unsafe(no_mangle)]
pub extern "C" fn gff3_build(text: &[u8]) -> Gff3BuildValue
    ensures { result ≡ c_build (build.build_of text.now) }
{
    match read_directives::parse_genome_build(text) {
        Ok(build) => Gff3BuildValue {
            refused: 0,
            source_start: build.source.start,
            source_end: build.source.end,
            name_start: build.name.start,
            name_end: build.name.end,
        },
        Err(refusal) => Gff3BuildValue {
            refused: refusal.number() as u64,
            source_start: 0,
            source_end: 0,
            name_start: 0,
            name_end: 0,
        },
    }
}
