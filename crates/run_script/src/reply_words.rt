//! The words of a reply, each behind a blank.
ghost use Rattle.std.specs.Prelude.{◌≡◌, ◌+◌, ◌≤◌, ◌++◌, decimal, length, map, slice_index, OnOk, if◌then◌else◌};
ghost use Rattle.blif_defs.specs.Printing.{spaced};
ghost use Rattle.fabric_defs.specs.Numbered.{list_of};
ghost use Rattle.fabric_defs.specs.declared.limits.TheConstants.{MAX_SIDE};
ghost use Rattle.refusal_text.specs.Words.{and_word};
ghost use Rattle.script_defs.specs.Printing.{point_word, bits_word, reply_words};
ghost use Rattle.script_defs.specs.Transcripts.{IsPrintable};
ghost use Rattle.run_script.specs.Replies.{reply_of};

use crate::reply::Reply;
use eval_lanes::Ones;
use pch_base::{Bits, NoMemory, print_number};
use refusal_text::{push_number, push_reason, push_word};

/// Appends a point.
fn push_point(out: &mut Vec<u8>, at: u32) -> Result<(), NoMemory>
    ensures { OnOk result (out.new.items ≡ and_word out.old.items (point_word at)) }
{
    out.extend_from_slice(b" @")?;
    print_number(u64::from(at), out)
}

/// Appends a word and a point.
fn push_pointed(out: &mut Vec<u8>, word: &str, at: u32) -> Result<(), NoMemory>
    ensures { OnOk result
        (out.new.items ≡ and_word (and_word out.old.items word.now) (point_word at)) }
{
    push_word(out, word)?;
    push_point(out, at)
}

/// The number of a bit.
fn bit_of(bit: bool) -> u64
    ensures { result ≡ (if bit then 1 else 0) }
{
    if bit { 1 } else { 0 }
}

/// Appends the bytes of the bits.
fn push_bit_bytes(out: &mut Vec<u8>, bits: Bits) -> Result<(), NoMemory>
    ensures { OnOk result (out.new.items ≡ out.old.items ++ map (λ b. 48 + b) bits) }
{
    for i in 0..bits.len() {
        out.push(if bits.get(i) { b'1' } else { b'0' })?;
    }
    Ok(())
}

/// Appends the word of the bits behind a blank.
pub fn push_bits(out: &mut Vec<u8>, bits: Bits) -> Result<(), NoMemory>
    ensures { OnOk result (out.new.items ≡ and_word out.old.items (bits_word bits)) }
{
    if bits.len() == 0 {
        return push_word(out, "-");
    }
    out.push(b' ')?;
    push_bit_bytes(out, bits)
}

/// Appends the counts of the first outputs.
fn push_counts(out: &mut Vec<u8>, counts: &Ones, outputs: u32) -> Result<(), NoMemory>
    requires { outputs ≤ MAX_SIDE }
    ensures { OnOk result (out.new.items ≡ out.old.items
        ++ spaced (list_of outputs (λ o. decimal (slice_index counts.now o)))) }
{
    for o in 0..outputs {
        push_number(out, counts.get(o))?;
    }
    Ok(())
}

/// Appends the words of the reply.
pub(crate) fn push_reply_words(out: &mut Vec<u8>, reply: &Reply) -> Result<(), NoMemory>
    requires { IsPrintable (reply_of reply.now) }
    ensures { OnOk result
        (out.new.items ≡ out.old.items ++ spaced (reply_words (reply_of reply.now))) }
{
    match reply {
        Reply::Agreed { at } => push_pointed(out, "agreed", *at),
        Reply::Installed { at } => push_pointed(out, "installed", *at),
        Reply::Evicted { at } => push_pointed(out, "evicted", *at),
        Reply::Full { at } => push_pointed(out, "full", *at),
        Reply::Unagreed { at } => push_pointed(out, "unagreed", *at),
        Reply::Vacant { at } => push_pointed(out, "vacant", *at),
        Reply::Refused { refusal, at } => {
            push_word(out, "refused")?;
            push_reason(out, *refusal)?;
            push_point(out, *at)
        }
        Reply::Stale { checked, at } => {
            push_pointed(out, "stale", *checked)?;
            push_point(out, *at)
        }
        Reply::Out { outputs, probe, at } => {
            push_word(out, "out")?;
            push_bits(out, *outputs)?;
            push_number(out, bit_of(*probe))?;
            push_point(out, *at)
        }
        Reply::Width { want, at } => {
            push_word(out, "width")?;
            push_number(out, u64::from(*want))?;
            push_point(out, *at)
        }
        Reply::Ones {
            counts,
            outputs,
            at,
        } => {
            push_word(out, "ones")?;
            push_counts(out, counts, *outputs)?;
            push_point(out, *at)
        }
    }
}
