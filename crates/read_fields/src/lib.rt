// Reads columns 1 to 8 of a record: names decoded, positions, score, strand and phase.
// In the Rust: `Record` in `record.rs`, `record/fields.rs`.
//
// The reader of a column takes a line and any bounds, and refuses 1 where they are not the line's own. `record_of` takes the line alone,
// indexes it and reads columns 4 to 8 at once.
//
// Proved: each answer is the definition of specs/, in the order of RULES 11.1. Assumes nothing.
#![tactic(auto)]

mod phase;
mod position;
mod record;
mod score;
mod strand;
mod texts;

pub use phase::phase_at;
pub use position::{end_at, start_at};
pub use record::{Record, record_of};
pub use score::score_at;
pub use strand::strand_at;
pub use texts::{reference_sequence_name, source, ty};
