//! The text of a transcript: the entries of the journal, then the replies of each lane.
ghost use Rattle.std.specs.Prelude.{◌≡◌, ◌∷◌, [], ◌++◌, All, decimal, length, map, codes, IfOk, OnOk};
ghost use Rattle.blif_defs.specs.Printing.{line_text};
ghost use Rattle.script_defs.specs.Printing.{kind_word, entry_text, entries_text, reply_words, replies_text, lanes_text, transcript_text};
ghost use Rattle.script_defs.specs.Transcripts.{IsPrintable, ArePrintable};
ghost use Rattle.run_script.specs.Replies.{reply_of, transcript_of};

use crate::items::Items;
use crate::reply::Reply;
use crate::reply_words::push_reply_words;
use crate::transcript::Transcript;
use pch_base::{NoMemory, print_number};
use refusal_text::{push_number, push_word};
use script_defs::{EntryKind, Line};
use std::alloc::Global;

/// The word of an entry's kind.
fn kind_word(kind: EntryKind) -> &'static str
    ensures { result.now ≡ kind_word kind }
{
    match kind {
        EntryKind::Agreed => "agreed",
        EntryKind::Installed => "installed",
        EntryKind::Evicted => "evicted",
    }
}

/// Appends the line of the entry with this number.
fn push_entry(out: &mut Vec<u8>, number: u64, entry: &Line) -> Result<(), NoMemory>
    ensures { OnOk result (out.new.items ≡ out.old.items ++ entry_text number entry.now) }
{
    print_number(number, out)?;
    push_word(out, kind_word(entry.kind))?;
    push_number(out, u64::from(entry.lane))?;
    push_number(out, u64::from(entry.turn))?;
    push_number(out, u64::from(entry.slot))?;
    out.push(b'\n')?;
    Ok(())
}

/// Appends a line of a word and a number.
fn push_title(out: &mut Vec<u8>, word: &str, number: u64) -> Result<(), NoMemory>
    ensures { OnOk result
        (out.new.items ≡ out.old.items ++ line_text (word.now ∷ decimal number ∷ [])) }
{
    out.extend_from_slice(word.as_bytes())?;
    push_number(out, number)?;
    out.push(b'\n')?;
    Ok(())
}

/// Appends the lines of all entries.
fn push_entries(out: &mut Vec<u8>, entries: &[Line]) -> Result<(), NoMemory>
    ensures { OnOk result (out.new.items ≡ out.old.items ++ entries_text 1 entries.now) }
{
    for (i, entry) in entries.iter().enumerate() {
        push_entry(out, i as u64 + 1, entry)?;
    }
    Ok(())
}

/// Appends the line of the reply of this turn.
fn push_reply(out: &mut Vec<u8>, turn: u64, reply: &Reply) -> Result<(), NoMemory>
    requires { IsPrintable (reply_of reply.now) }
    ensures { OnOk result (out.new.items ≡ out.old.items
        ++ line_text (decimal turn ∷ reply_words (reply_of reply.now))) }
{
    print_number(turn, out)?;
    push_reply_words(out, reply)?;
    out.push(b'\n')?;
    Ok(())
}

/// Appends the lines of all replies of a lane.
fn push_replies(out: &mut Vec<u8>, replies: &[Reply]) -> Result<(), NoMemory>
    requires { All IsPrintable (map reply_of replies.now) }
    ensures { OnOk result
        (out.new.items ≡ out.old.items ++ replies_text 0 (map reply_of replies.now)) }
{
    for (turn, reply) in replies.iter().enumerate() {
        push_reply(out, turn as u64, reply)?;
    }
    Ok(())
}

/// Appends the lines of all lanes.
fn push_lanes(out: &mut Vec<u8>, lanes: &[Items<Reply>]) -> Result<(), NoMemory>
    requires { ArePrintable (map (λ replies. map reply_of replies) lanes.now) }
    ensures { OnOk result (out.new.items ≡ out.old.items
        ++ lanes_text 0 (map (λ replies. map reply_of replies) lanes.now)) }
{
    for (lane, replies) in lanes.iter().enumerate() {
        push_title(out, "lane", lane as u64)?;
        push_replies(out, replies.as_slice())?;
    }
    Ok(())
}

/// The text of a transcript in which each reply has a text (`ArePrintable`): a refusal has a reason,
/// and there are counts for at most 64 outputs.
pub fn print_transcript(alloc: Global, t: &Transcript) -> Result<Vec<u8>, NoMemory>
    requires { ArePrintable (transcript_of t.now).lanes }
    ensures { IfOk result (λ v. v.items ≡ transcript_text (transcript_of t.now)) }
{
    let journal = t.journal.as_slice();
    let mut out = Vec::new(alloc);
    push_title(&mut out, "journal", journal.len() as u64)?;
    push_entries(&mut out, journal)?;
    push_lanes(&mut out, t.lanes.as_slice())?;
    Ok(out)
}
