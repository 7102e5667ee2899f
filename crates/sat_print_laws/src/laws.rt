ghost use Rattle.std.specs.Prelude.{◌≡◌, ℕ, ◌+◌, ◌*◌, ◌≤◌, List, length};
ghost use Rattle.clause_defs.specs.Compaction.{AllStated, compacted, derived_literals};
ghost use Rattle.clause_defs.specs.Formulas.{Formula};
ghost use Rattle.clause_defs.specs.Traces.{Entry, IsTrace};
ghost use Rattle.sat_text_defs.specs.declared.limits.TheConstants.{MAX_CNF_BYTES, MAX_TRACE_BYTES};
ghost use Rattle.sat_text_defs.specs.CnfText.{CnfText, IsFormula};
ghost use Rattle.sat_text_defs.specs.Printed.{cnf_text, trace_text};
ghost use Rattle.sat_text_defs.specs.TraceText.{TraceText};

/// The printed text of a formula within the limits, if it is short enough to be read, is the text of that
/// formula; and each formula that was read is within the limits.
pub fn printed_cnf_is_read_again()
    ensures printed { (f : Formula) → IsFormula f
        → length (cnf_text f) ≤ MAX_CNF_BYTES → CnfText (cnf_text f) f }
    ensures again { (text : List ℕ) (f : Formula) → CnfText text f
        → length (cnf_text f) ≤ MAX_CNF_BYTES → CnfText (cnf_text f) f }
{}

/// The printed text of a trace, if it is short enough to be read, is the text of that trace: in version 1
/// where the literals of each clause are stated, and in every other version.
pub fn printed_trace_is_read_again()
    ensures { (v : ℕ) (t : List Entry) → IsTrace t → (v ≡ 1 → AllStated t)
        → length (trace_text t) ≤ MAX_TRACE_BYTES → TraceText (trace_text t) v t }
{}

/// What is printed of a trace that was read isn't longer than its text and a line feed, nor is what is
/// printed of the trace with the sign in place of the literals of its derived clauses.
pub fn printed_trace_is_short()
    ensures as_it_is { (text : List ℕ) (v : ℕ) (t : List Entry)
        → TraceText text v t → length (trace_text t) ≤ length text + 1 }
    ensures with_signs { (text : List ℕ) (v : ℕ) (t : List Entry)
        → TraceText text v t → length (trace_text (compacted t)) ≤ length text + 1 }
{}

/// A text has at least two bytes for each literal that a derived clause of its trace states.
pub fn text_states_few_literals()
    ensures { (text : List ℕ) (v : ℕ) (t : List Entry)
        → TraceText text v t → 2 * derived_literals t ≤ length text }
{}
