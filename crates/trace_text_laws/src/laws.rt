ghost use Rattle.std.specs.Prelude.{◌≡◌, ◌≢◌, ℕ, ◌⊎◌, ◌↔◌, List, Ok, Err};
ghost use Rattle.clause_defs.specs.Clauses.{Has};
ghost use Rattle.clause_defs.specs.Compaction.{AllStated};
ghost use Rattle.clause_defs.specs.Traces.{Entry};
ghost use Rattle.sat_text_defs.specs.declared.errors.TraceError.{TraceError};
ghost use Rattle.sat_text_defs.specs.TraceText.{TraceText, TraceTextFault, tokens_of};
ghost use Rattle.sat_text_defs.specs.Words.{words_of, sign_word};
ghost use Rattle.sat_text_defs.specs.TraceReading.{trace_in};

/// The trace that is computed of a text is the one whose text it is.
pub fn trace_of_a_text_is_computed()
    ensures { (text : List ℕ) (v : ℕ) (t : List Entry)
        → (trace_in v text ≡ Ok t) ↔ TraceText text v t }
{}

/// The fault that is computed of a text is the one that the text has: too many bytes, the first word that
/// can't stand where it does, the first clause that the ones before it don't allow, or an end inside a
/// clause.
pub fn fault_of_a_trace_text_is_computed()
    ensures { (text : List ℕ) (v : ℕ) (f : TraceError)
        → (trace_in v text ≡ Err f) ↔ TraceTextFault text v f }
{}

/// A text has one trace, or else one fault, in each version.
pub fn text_has_one_trace_or_fault()
    ensures some { (text : List ℕ) (v : ℕ)
        → ((t : List Entry) × TraceText text v t) ⊎ ((f : TraceError) × TraceTextFault text v f) }
    ensures one_trace { (text : List ℕ) (v : ℕ) (t u : List Entry)
        → TraceText text v t → TraceText text v u → t ≡ u }
    ensures one_fault { (text : List ℕ) (v : ℕ) (f g : TraceError)
        → TraceTextFault text v f → TraceTextFault text v g → f ≡ g }
    ensures not_both { (text : List ℕ) (v : ℕ) (t : List Entry) (f : TraceError)
        → TraceText text v t → TraceTextFault text v f → ⊥ }
{}

/// All versions but 1 are read alike: a text has the same trace, or the same fault, in each of them.
pub fn later_versions_agree()
    ensures { (text : List ℕ) (v u : ℕ) → v ≢ 1 → u ≢ 1 → trace_in v text ≡ trace_in u text }
{}

/// A text of version 1 is the text of the same trace in every version, a text of a trace without the sign
/// is one of version 1, and a text in which the sign doesn't stand has one trace or one fault for all
/// versions.
pub fn versions_agree_without_the_sign()
    ensures first { (text : List ℕ) (v : ℕ) (t : List Entry)
        → TraceText text 1 t → TraceText text v t × AllStated t }
    ensures stated { (text : List ℕ) (v : ℕ) (t : List Entry)
        → TraceText text v t → AllStated t → TraceText text 1 t }
    ensures unsigned { (text : List ℕ) (v u : ℕ)
        → ((w : List ℕ) → Has (words_of (tokens_of text)) w → w ≢ sign_word)
        → trace_in v text ≡ trace_in u text }
{}
