// Exports the C functions of `c_directives`.
//
// Each calls the function of its name there and promises the same, word for word. Assumes nothing.
#![tactic(auto)]

ghost use Rattle.std.specs.Prelude.{◌≡◌};
ghost use Rattle.read_directives.specs.GenomeBuild as build;
ghost use Rattle.read_version.specs.GffVersion as version;
ghost use Rattle.read_directives.specs.SequenceRegion as region;
ghost use Rattle.c_directives.specs.Directive.{c_version, c_region, c_build};

use c_directives::{Gff3BuildValue, Gff3RegionValue, Gff3VersionValue};

#[unsafe(no_mangle)]
pub extern "C" fn gff3_version(text: &[u8]) -> Gff3VersionValue
    ensures { result ≡ c_version (version.version_of text.now) }
{
    c_directives::gff3_version(text)
}

#[unsafe(no_mangle)]
pub extern "C" fn gff3_region(text: &[u8]) -> Gff3RegionValue
    ensures { result ≡ c_region (region.region_of text.now) }
{
    c_directives::gff3_region(text)
}

#[unsafe(no_mangle)]
pub extern "C" fn gff3_build(text: &[u8]) -> Gff3BuildValue
    ensures { result ≡ c_build (build.build_of text.now) }
{
    c_directives::gff3_build(text)
}
