ghost use Rattle.std.specs.Prelude.{◌≡◌, ℕ, suc, ◌+◌, ◌/◌, ◌<◌, ◌≤◌, ◌++◌, List, [], ◌∷◌, length, set, get_or, Some, None};
ghost use Rattle.clause_defs.specs.Literals.{Literal};
ghost use Rattle.clause_defs.specs.Clauses.{Lits};
ghost use Rattle.log_defs.specs.Logs.{Derived, LogValue, Words, HasDerived, clause_of_log};
ghost use Rattle.log_defs.specs.Deriving.{with_derived};
ghost use Rattle.trail_defs.specs.Assignments.{IsSatisfied};
ghost use Rattle.trail_defs.specs.Trails.{Assigned, clause_at, IsTrail, IsOpened, HasSameClauses, HasSameValues};
ghost use Rattle.settled_levels.specs.Levels.{IsSettledBelow, IsTaught};
ghost use Rattle.search_defs.specs.Solving.{Solving, StandsAs, derived_place, IsSolving, HasLearned};
ghost use Rattle.search_defs.specs.Ends.{IsTotal, IsPoint};
ghost use Rattle.search_defs.specs.declared.standing.Standing.TheVariants.{Learned, Forgotten, Back};

/// A search begins with the clauses of the formula, each under its number, and room for what may be
/// derived.
pub fn a_search_begins()
    ensures { (log : LogValue) (limit : ℕ) (t : Assigned) (indices : List ℕ) → log.derived ≡ [] → limit ≤ log.budget
        → IsOpened log.originals.variables log.originals.clauses limit (limit / 4) t
        → length indices ≡ length log.originals.clauses + limit / 4 + 1
        → ((k : ℕ) → k ≤ length log.originals.clauses → get_or indices k 0 ≡ k)
        → IsSolving log (record { limit = limit; trail = t; indices = indices; standings = [] }) }
{}

/// Steps that leave the clauses alone keep what the search keeps, if they keep the levels settled.
pub fn a_search_moves_on()
    ensures { (log : LogValue) (s : Solving) (t : Assigned) → IsSolving log s → HasSameClauses s.trail t
        → IsSettledBelow t
        → IsSolving log (record { limit = s.limit; trail = t; indices = s.indices; standings = s.standings }) }
{}

/// What a conflict teaches isn't derived yet, or is a clause that the search forgot.
pub fn a_lesson_is_new_or_forgotten()
    ensures { (log : LogValue) (s : Solving) (c : Lits) (u : Literal) (b : ℕ) → IsSolving log s → IsTrail s.trail
        → IsTaught s.trail c u b → (index : ℕ) → HasDerived log c index → StandsAs log s.standings index Forgotten }
{}

/// Once it is derived and learned, the search keeps what it kept.
pub fn a_search_learns()
    ensures { (log : LogValue) (s : Solving) (d : Derived) (u : Literal) (b index j : ℕ) (now : Assigned)
        → IsSolving log s → IsTrail s.trail → IsTaught s.trail d.lits u b
        → index ≡ length log.originals.clauses + length log.derived + 1
        → Words (log.derived ++ d ∷ []) ≤ s.limit → HasLearned b d.lits s.trail j now
        → IsSolving (with_derived log d) (record {
          limit = s.limit;
          trail = now;
          indices = set s.indices (suc j) index;
          standings = s.standings ++ Learned ∷ [];
        }) }
{}

/// Once it is put back, where it was forgotten, the search keeps what it kept.
pub fn a_clause_comes_back()
    ensures { (log : LogValue) (s : Solving) (c : Lits) (u : Literal) (b index j : ℕ) (now : Assigned)
        → IsSolving log s → IsTrail s.trail → IsTaught s.trail c u b → StandsAs log s.standings index Forgotten
        → clause_of_log log index ≡ c → HasLearned b c s.trail j now
        → IsSolving log (record {
          limit = s.limit;
          trail = now;
          indices = set s.indices (suc j) index;
          standings = set s.standings (derived_place log index) Back;
        }) }
{}

/// A learned clause that the trail takes away is forgotten, and the search keeps what it kept.
pub fn a_search_forgets()
    ensures { (log : LogValue) (s : Solving) (c : Lits) (j : ℕ) (now : Assigned) → IsSolving log s
        → IsTrail s.trail → clause_at s.trail.clauses (suc j) ≡ Some c → StandsAs log s.standings (get_or s.indices (suc j) 0) Learned
        → now.clauses ≡ set s.trail.clauses j None → HasSameValues s.trail now
        → IsSolving log (record {
          limit = s.limit;
          trail = now;
          indices = s.indices;
          standings = set s.standings (derived_place log (get_or s.indices (suc j) 0)) Forgotten;
        }) }
{}

/// Where each variable has a value, and each live clause a true literal, it has found a point: no clause
/// of the formula is forgotten.
pub fn a_search_finds()
    ensures { (log : LogValue) (s : Solving) → IsSolving log s → IsTotal s.trail
        → ((k : ℕ) (c : Lits) → clause_at s.trail.clauses k ≡ Some c → IsSatisfied s.trail.lits c)
        → IsPoint log s }
{}
