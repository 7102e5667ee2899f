//! Why a bundle is refused, in words: what comes in is a refusal, and what goes out are its words with
//! one blank between them, behind the bytes that were there. `specs/Reasons` has the same words as
//! lists of bytes. No words say that memory was wanting.
#![tactic(auto)]

mod reason;
mod words;

pub use reason::{push_bundle_fault, push_config_fault, push_reason, push_trace_fault};
pub use words::{push_number, push_word};
