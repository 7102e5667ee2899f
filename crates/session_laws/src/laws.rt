ghost use Rattle.std.specs.Prelude.{◌≡◌, ℕ, List, [], ◌∷◌, take, length, filter, nat_le, Some};
ghost use Rattle.net_defs.specs.Networks.{Network};
ghost use Rattle.net_defs.specs.Evaluation.{SpecOut};
ghost use Rattle.journal_defs.specs.Journals.{EntryValue, spec_at};
ghost use Rattle.journal_defs.specs.Legality.{Legal};
ghost use Rattle.script_defs.specs.Scripts.{ScriptValue, IsScript};
ghost use Rattle.script_defs.specs.Transcripts.{TranscriptValue, ReplyValue, out};
ghost use Rattle.script_defs.specs.declared.line.Line.{Line};
ghost use Rattle.script_defs.specs.declared.command.Command.{Command};
ghost use Rattle.script_defs.specs.declared.command.Command.TheVariants.{Cycle};
ghost use Rattle.session_defs.specs.Files.{Contents};
ghost use Rattle.session_defs.specs.Meant.{IsCommandAt};
ghost use Rattle.session_defs.specs.Points.{after};
ghost use Rattle.session_defs.specs.Transcripts.{IsReplyAt, IsTranscript};
ghost use Rattle.session_laws.specs.Nets.{DescribeNets};

/// The journal that the lines of a transcript mean is legal.
pub fn meant_journals_are_legal()
    ensures { (s : ScriptValue) (files : List Contents) (t : TranscriptValue) (h : List EntryValue)
        → IsScript s → DescribeNets files → IsTranscript s files t h
        → Legal s.geometry s.slots s.limit h }
{}

/// The outputs that a cycle was answered are those of the specification that was agreed for its slot
/// after as many entries as the reply names.
pub fn outputs_are_agreed()
    ensures { (s : ScriptValue) (files : List Contents) (t : TranscriptValue) (h : List EntryValue)
        (lane turn slot probe bit at : ℕ) (x y : List ℕ)
        → IsScript s → DescribeNets files → IsTranscript s files t h
        → IsCommandAt s lane turn (Cycle slot x probe) → IsReplyAt t lane turn (out y bit at)
        → (net : Network) × (spec_at (take at h) slot ≡ Some net) × SpecOut net x y }
{}

/// In a script of one lane each point is the number of the lane's entries so far.
pub fn points_of_one_lane_count()
    ensures { (s : ScriptValue) (files : List Contents) (t : TranscriptValue) (h : List EntryValue)
        (commands : List Command) (turn : ℕ) (reply : ReplyValue)
        → s.lanes ≡ commands ∷ [] → IsTranscript s files t h → IsReplyAt t 0 turn reply
        → after reply ≡ length (filter (λ (line : Line). nat_le line.turn turn) t.journal) }
{}
