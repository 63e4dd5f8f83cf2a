// Why a record is refused.
ghost use Rattle.std.specs.Prelude.{◌≡◌, Some, IsSomeAnd};
ghost use Rattle.base_scan.specs.Part.{text_at};
ghost use Rattle.base_buffer.specs.Answer.{refusal_of, unless};
ghost use Rattle.sheet_form.specs.Sheet.{Sheet, sheet_read};
ghost use Rattle.write_measure.specs.Record.{bad, places_of, faults, fault_reasons, fault_of};

use base_refusals::Refusal;
use base_scan::Place;

// What is wrong with a record.
#[derive(Clone, Copy)]
struct Faults {
    // A start or an end of zero.
    position: bool,
    // Neither missing nor a token.
    score: bool,
    // Above 3.
    strand: bool,
    // Above 3.
    phase: bool,
    // The type is `CDS`, and there is no phase.
    cds: bool,
}

// Where a sheet has its type and its score. None where it breaks off before.
fn type_and_score(sheet: &[u8]) -> Option<(Place, Place)>
    ensures places { result ≡ places_of sheet.now }
    ensures read { (s : Sheet) → sheet_read sheet.now ≡ Some s →
        IsSomeAnd result (λ p. (text_at p.0 sheet.now ≡ s.type) × (text_at p.1 sheet.now ≡ s.score)) }
{
    let name = sheet_form::section_at(sheet, 0)?;
    let source = sheet_form::section_at(sheet, name.end)?;
    let ty = sheet_form::section_at(sheet, source.end)?;
    let score = sheet_form::section_at(sheet, ty.end)?;
    Some((ty, score))
}

// A score that is neither missing nor a token.
fn is_bad(score: &[u8]) -> bool
    ensures { result ≡ bad score.now }
{
    !((score.len() == 0) | read_score::is_score(score))
}

// The first reason that a record's faults give.
fn first_fault(faults: Faults) -> Result<(), Refusal>
    ensures { result ≡ unless (refusal_of (fault_reasons faults)) tt }
{
    if faults.position {
        return Err(Refusal::Position);
    }
    if faults.score {
        return Err(Refusal::Score);
    }
    if faults.strand {
        return Err(Refusal::Strand);
    }
    if faults.phase {
        return Err(Refusal::Phase);
    }
    if faults.cds {
        return Err(Refusal::PhaseMissing);
    }
    Ok(())
}

// The first reason that a sheet's type and score and the numbers give, whatever stands behind the score; 23 where it breaks off before.
pub fn fault(sheet: &[u8], start: u64, end: u64, strand: u32, phase: u32) -> Result<(), Refusal>
    ensures told { result ≡ fault_of sheet.now start end strand phase }
    ensures met { (s : Sheet) → sheet_read sheet.now ≡ Some s →
        result ≡ unless (refusal_of (fault_reasons (faults (Some s) start end strand phase))) tt }
{
    let Some((ty, score)) = type_and_score(sheet) else {
        return Err(Refusal::Sheet);
    };
    let cds = base_words::is_same(base_scan::text(sheet, ty), b"CDS");
    first_fault(Faults {
        position: (start == 0) | (end == 0),
        score: is_bad(base_scan::text(sheet, score)),
        strand: 3 < strand,
        phase: 3 < phase,
        cds: cds & (phase == 3),
    })
}
