ghost use Rattle.std.specs.Prelude.{◌≡◌, ℕ, ◌+◌, ◌≤◌, List, [], ◌∷◌, ◌++◌, length};
ghost use Rattle.clause_defs.specs.Clauses.{Lits, Has, SameSet, IsClause};
ghost use Rattle.clause_defs.specs.Compaction.{AllStated};
ghost use Rattle.clause_defs.specs.Resolution.{Step, Resolves};
ghost use Rattle.clause_defs.specs.Traces.{IsTrace};
ghost use Rattle.clause_defs.specs.Verdicts.{AllRightBefore, VerdictOf};
ghost use Rattle.clause_defs.specs.declared.verdict.Verdict.{Verdict};
ghost use Rattle.log_defs.specs.Logs.{Derived, LogOk, LogValue, IsIndexOf, IsLog, Extends, clause_of_log};
ghost use Rattle.log_defs.specs.LogTraces.{trace_of, EndsWithEmpty};

/// The chain of a list of clauses, step by step: one clause gives itself, and a step more resolves with
/// one clause more.
pub fn chain_grows()
    ensures one { (c : Lits) → Resolves (c ∷ []) c }
    ensures more { (cs : List Lits) (r c s : Lits) → Resolves cs r → Step r c s → Resolves (cs ++ c ∷ []) s }
    ensures same { (cs : List Lits) (s d : Lits) → SameSet s d → Resolves cs s → Resolves cs d }
{}

/// A clause of a log keeps its index in each later log.
pub fn indices_stay()
    ensures index { (before after : LogValue) (i : ℕ) → Extends before after → IsIndexOf before i → IsIndexOf after i }
    ensures clause { (before after : LogValue) (i : ℕ) → Extends before after → IsIndexOf before i
        → clause_of_log after i ≡ clause_of_log before i }
{}

/// The trace of a log has no faulty clause, whatever the limit, and where its last clause is empty it
/// refutes the formula.
pub fn log_trace_checks()
    ensures right { (f : List Lits) (ds : List Derived) (w : ℕ) → LogOk f ds
        → AllRightBefore f (trace_of f ds) w (length (trace_of f ds)) }
    ensures refutes { (f : List Lits) (ds : List Derived) (w : ℕ) → LogOk f ds → EndsWithEmpty f ds
        → VerdictOf f (trace_of f ds) w Verdict.Refutes }
{}

/// The trace of a log over clauses is a trace, with indices within their limit, and it states the
/// literals of each clause.
pub fn log_trace_is_a_trace()
    ensures is_trace { (l : LogValue) → IsLog l
        → ((c : Lits) → Has l.originals.clauses c → IsClause c)
        → IsTrace (trace_of l.originals.clauses l.derived) }
    ensures stated { (f : List Lits) (ds : List Derived) → AllStated (trace_of f ds) }
{}
