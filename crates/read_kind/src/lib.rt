// Tells directive, comment and record apart, and finds a comment's text and a directive's key and value.
// In the Rust: `Line::kind` in `line.rs`, `directive.rs`.
//
// Nothing is copied: a comment's text, a key and a value are places, which `base_scan::text` reads.
//
// Proved: each answer is the definition of specs/. Assumes nothing.
#![tactic(auto)]

mod comment;
mod directive;
mod kind;

pub use comment::comment_of;
pub use directive::{KeyValue, directive_of};
pub use kind::{Kind, kind_of};
