// `GenomeBuild::from_str`.
ghost use Rattle.std.specs.Prelude.{◌≡◌};
ghost use Rattle.read_directives.specs.GenomeBuild.{build_of};

use super::words::word;
use base_refusals::Refusal;
use base_scan::Place;

// Where source and name stand in the text.
#[derive(Clone, Copy)]
pub struct GenomeBuild {
    pub source: Place,
    pub name: Place,
}

// A build: source, name. Extra words are ignored. The refusals are 6, 15 and 16.
pub fn parse_genome_build(text: &[u8]) -> Result<GenomeBuild, Refusal>
    ensures { result ≡ build_of text.now }
{
    if text.is_empty() {
        return Err(Refusal::Empty);
    }
    let source = word(text, 0, Refusal::BuildSourceMissing)?;
    let name = word(text, source.end, Refusal::BuildNameMissing)?;
    Ok(GenomeBuild { source, name })
}
