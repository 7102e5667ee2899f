//! The words of refusals. Each call appends a blank and the words.

ghost use Rattle.std.specs.Prelude.{◌≡◌, ◌≢◌, OnOk};
ghost use Rattle.clause_defs.specs.declared.verdict.Verdict.TheVariants.{Refutes};
ghost use Rattle.refusal_text.specs.Words.{and_word, and_number};
ghost use Rattle.refusal_text.specs.Reasons.{trace_fault, bundle_fault, config_fault, verdict_reason, reason, HasReason};

use crate::words::{push_number, push_word};
use bundle_defs::BundleError;
use clause_defs::{ChainError, Verdict};
use fabric_defs::ConfigError;
use pch_base::NoMemory;
use sat_text_defs::TraceError;
use verify_defs::Refusal;

/// Appends a blank, the word and the number.
fn push_numbered(out: &mut Vec<u8>, word: &str, n: u32) -> Result<(), NoMemory>
    ensures { OnOk result (out.new.items ≡ and_number (and_word out.old.items word.now) n) }
{
    push_word(out, word)?;
    push_number(out, u64::from(n))
}

/// Appends the fault of a trace.
pub fn push_trace_fault(out: &mut Vec<u8>, error: TraceError) -> Result<(), NoMemory>
    ensures words { OnOk result (out.new.items ≡ and_word out.old.items (trace_fault error)) }
    ensures fault { OnOk result (error ≢ TraceError.NoMemory) }
{
    match error {
        TraceError::TooLong => push_word(out, "too-long"),
        TraceError::Syntax { at } => push_numbered(out, "syntax", at),
        TraceError::Repeated { index } => push_numbered(out, "repeated", index),
        TraceError::Unknown { index, antecedent } => {
            push_numbered(out, "unknown", index)?;
            push_number(out, u64::from(antecedent))
        }
        TraceError::NoMemory => Err(NoMemory),
    }
}

/// Appends the fault of a bundle.
pub fn push_bundle_fault(out: &mut Vec<u8>, error: BundleError) -> Result<(), NoMemory>
    ensures { OnOk result (out.new.items ≡ and_word out.old.items (bundle_fault error)) }
{
    match error {
        BundleError::Magic => push_word(out, "magic"),
        BundleError::Lengths => push_word(out, "lengths"),
        BundleError::Version { found } => push_numbered(out, "version", found),
        BundleError::Geometry => push_word(out, "geometry"),
        BundleError::Digest => push_word(out, "digest"),
    }
}

/// Appends the fault of a configuration.
pub fn push_config_fault(out: &mut Vec<u8>, error: ConfigError) -> Result<(), NoMemory>
    ensures words { OnOk result (out.new.items ≡ and_word out.old.items (config_fault error)) }
    ensures fault { OnOk result (error ≢ ConfigError.NoMemory) }
{
    match error {
        ConfigError::Length { want, found } => {
            push_word(out, "length")?;
            push_number(out, want)?;
            push_number(out, found)
        }
        ConfigError::Selector { at } => push_numbered(out, "selector", at),
        ConfigError::NoMemory => Err(NoMemory),
    }
}

/// Appends what a trace shows that refutes nothing.
fn push_verdict_reason(out: &mut Vec<u8>, verdict: Verdict) -> Result<(), NoMemory>
    requires { verdict ≢ Refutes }
    ensures { OnOk result (out.new.items ≡ and_word out.old.items (verdict_reason verdict)) }
{
    match verdict {
        Verdict::NotOriginal { clause } => push_numbered(out, "not-original", clause),
        Verdict::Chain(ChainError::NoClash { clause, step }) => {
            push_numbered(out, "no-clash", clause)?;
            push_number(out, u64::from(step))
        }
        Verdict::Chain(ChainError::ManyClash { clause, step }) => {
            push_numbered(out, "many-clash", clause)?;
            push_number(out, u64::from(step))
        }
        Verdict::Chain(ChainError::Other { clause }) => {
            push_numbered(out, "other-clause", clause)
        }
        Verdict::TooWide { clause } => push_numbered(out, "too-wide", clause),
        Verdict::NotEmptyEnd => push_word(out, "not-empty-end"),
        Verdict::Refutes => unreachable!(),
    }
}

/// Appends why a bundle isn't accepted. There is nothing to append for want of memory, which is
/// answered then.
pub fn push_reason(out: &mut Vec<u8>, refusal: Refusal) -> Result<(), NoMemory>
    requires { (v : Verdict) → refusal ≡ Refusal.Verdict v → v ≢ Refutes }
    ensures words { OnOk result (out.new.items ≡ and_word out.old.items (reason refusal)) }
    ensures reason { OnOk result (HasReason refusal) }
{
    match refusal {
        Refusal::Pads => push_word(out, "pads"),
        Refusal::Bundle(error) => {
            push_word(out, "bundle")?;
            push_bundle_fault(out, error)
        }
        Refusal::OtherFabric => push_word(out, "other-fabric"),
        Refusal::Config(error) => {
            push_word(out, "config")?;
            push_config_fault(out, error)
        }
        Refusal::Trace(error) => {
            push_word(out, "trace")?;
            push_trace_fault(out, error)
        }
        Refusal::Verdict(verdict) => push_verdict_reason(out, verdict),
        Refusal::NoMemory => Err(NoMemory),
    }
}
