// The cases of reading that program_replay replays, from a byte that is found to the value of a directive.
//
// Each public function makes a call of the library, or walks to an end, and shows the answers. Above it stands its case, a letter and
// words. Proved: each is safe and ends.
#![tactic(auto)]

pub mod attributes_cases;
pub mod columns_cases;
pub mod directive_cases;
pub mod leaves;
pub mod line_cases;
pub mod parts_cases;
