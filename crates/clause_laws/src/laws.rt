ghost use Rattle.std.specs.Prelude.{◌≡◌, ◌≢◌, ℕ, ◌<◌, ◌≤◌, ◌↔◌, List, [], length, Option, Some, None, Result};
ghost use Rattle.clause_defs.specs.Clauses.{Lits, SameSet, HasClause, IsOrdered, Unsat, clause_of};
ghost use Rattle.clause_defs.specs.Resolution.{Step, Resolves, resolvent_of, chain_of};
ghost use Rattle.clause_defs.specs.Traces.{Entry, IsTrace, AntecedentsAreEarlier, IsCompactAt, stated_at, lits_at, antecedents_at};
ghost use Rattle.clause_defs.specs.TraceClauses.{LitsOf, antecedent_lits, given_by};
ghost use Rattle.clause_defs.specs.Compaction.{compacted, AllStated, derived_literals};
ghost use Rattle.clause_defs.specs.Verdicts.{ChainFault, ClauseFault, AllRightBefore, VerdictOf};
ghost use Rattle.clause_defs.specs.declared.verdict.ChainError.{ChainError};
ghost use Rattle.clause_defs.specs.declared.verdict.Verdict.{Verdict};

/// Two ordered lists with the same literals are the same list.
pub fn clauses_with_the_same_literals_are_equal()
    ensures { (c d : Lits) → IsOrdered c → IsOrdered d → SameSet c d → c ≡ d }
{}

/// The clause of a list of literals is the ordered list with the same literals.
pub fn clause_of_a_list()
    ensures ordered { (ls : Lits) → IsOrdered (clause_of ls) }
    ensures same { (ls : Lits) → SameSet (clause_of ls) ls }
    ensures one { (c ls : Lits) → IsOrdered c → SameSet c ls → c ≡ clause_of ls }
{}

/// The computed resolvent of two clauses is the one of the rule, in its order.
pub fn computed_resolvent_is_the_rules()
    ensures { (r c s : Lits) → (resolvent_of r c ≡ Some s) ↔ (Step r c s × IsOrdered s) }
{}

/// What the chain of a list of clauses is computed to be follows from them by the chain rule, in its
/// order.
pub fn computed_chain_is_the_rules()
    ensures { (cs : List Lits) (s : Lits) → (chain_of cs ≡ Some s) ↔ (Resolves cs s × IsOrdered s) }
{}

/// A clause of a trace is the stated one, or what the clauses of its antecedents give.
pub fn clauses_of_a_trace_are_determined()
    ensures stated { (t : List Entry) (k : ℕ) (c : Lits)
        → stated_at t k ≡ Some c → LitsOf t k ≡ Some c }
    ensures given { (t : List Entry) (k : ℕ) → AntecedentsAreEarlier t → IsCompactAt t k
        → LitsOf t k ≡ given_by (antecedent_lits t k) }
{}

/// The chain of a clause has one end, which the stated clause determines as a set.
pub fn chain_end_is_unique()
    ensures { (index : ℕ) (stated : Option Lits) (cs : List Lits)
        (end other : Result (Unit {0}) ChainError)
        → ChainFault index stated cs end → ChainFault index stated cs other → end ≡ other }
{}

/// A faultless clause without antecedents is a clause of the list.
pub fn original_clause_is_in_the_list()
    ensures { (f : List Lits) (t : List Entry) (w k : ℕ)
        → ClauseFault f t w k None → antecedents_at t k ≡ [] → HasClause f (lits_at t k) }
{}

/// A faultless clause with antecedents follows from them by the chain rule.
pub fn derived_clause_resolves()
    ensures { (f : List Lits) (t : List Entry) (w k : ℕ) (cs : List Lits) → AntecedentsAreEarlier t
        → ClauseFault f t w k None → antecedents_at t k ≢ [] → antecedent_lits t k ≡ Some cs
        → (c : Lits) × (LitsOf t k ≡ Some c) × Resolves cs c }
{}

/// Where the clauses of a trace up to a place are faultless, each of them has literals.
pub fn faultless_clauses_have_literals()
    ensures { (f : List Lits) (t : List Entry) (w n k : ℕ) → IsTrace t
        → AllRightBefore f t w n → k < n → LitsOf t k ≢ None }
{}

/// A list that a trace refutes has no satisfying assignment, whatever the limit.
pub fn refutation_is_sound()
    ensures { (variables : ℕ) (f : List Lits) (t : List Entry) (w : ℕ)
        → AntecedentsAreEarlier t → VerdictOf f t w Verdict.Refutes → Unsat variables f }
{}

/// A trace shows something of each list of clauses.
pub fn trace_has_a_verdict()
    ensures { (f : List Lits) (t : List Entry) (w : ℕ) → (v : Verdict) × VerdictOf f t w v }
{}

/// A trace shows one thing of a list.
pub fn verdict_is_unique()
    ensures { (f : List Lits) (t : List Entry) (w : ℕ) (v u : Verdict)
        → VerdictOf f t w v → VerdictOf f t w u → v ≡ u }
{}

/// A trace of stated clauses that refutes a list refutes it too with the sign for each derived clause
/// but the last, where the limit allows as many literals as the derived clauses state. Each clause
/// stays what it was.
pub fn compacted_trace_refutes()
    ensures trace { (t : List Entry) → IsTrace t → IsTrace (compacted t) }
    ensures refutes { (f : List Lits) (t : List Entry) (v w : ℕ) → IsTrace t → AllStated t
        → VerdictOf f t v Verdict.Refutes → derived_literals t ≤ w
        → VerdictOf f (compacted t) w Verdict.Refutes }
    ensures same { (f : List Lits) (t : List Entry) (v k : ℕ) → IsTrace t → AllStated t
        → VerdictOf f t v Verdict.Refutes → k < length t → LitsOf (compacted t) k ≡ LitsOf t k }
{}
