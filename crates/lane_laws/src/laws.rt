ghost use Rattle.std.specs.Prelude.{ℕ, List};
ghost use Rattle.journal_defs.specs.Journals.{EntryValue};
ghost use Rattle.script_defs.specs.Scripts.{ScriptValue};
ghost use Rattle.script_defs.specs.Transcripts.{ReplyValue};
ghost use Rattle.session_defs.specs.Files.{Contents};
ghost use Rattle.session_defs.specs.Lines.{lines_of};
ghost use Rattle.session_defs.specs.LaneEnds.{LanesEnd};
ghost use Rattle.session_defs.specs.Transcripts.{IsTranscript};

/// Where all lanes have ended, each having seen the whole journal, and made as many entries as it has,
/// the journal and the replies are a transcript.
pub fn lanes_make_a_transcript()
    ensures { (s : ScriptValue) (files : List Contents) (h : List EntryValue) (replies : List (List ReplyValue))
        → LanesEnd s files h replies
        → IsTranscript s files (record { journal = lines_of h; lanes = replies }) h }
{}
