ghost use Rattle.std.specs.Prelude.{◌≡◌, ℕ, ◌+◌, ◌<◌, ◌≤◌, ◌++◌, [], ◌∷◌, length, take, set, Some};
ghost use Rattle.clause_defs.specs.Literals.{Literal};
ghost use Rattle.clause_defs.specs.Clauses.{Lits, Has};
ghost use Rattle.trail_defs.specs.Assignments.{IsConflict, IsSettled};
ghost use Rattle.trail_defs.specs.Trails.{Assigned, IsTrail, IsUpTo, IsGrown, HasSameValues, clause_at, level_of};
ghost use Rattle.settled_levels.specs.Levels.{IsFront, IsOpenBelow, IsSettledBelow, IsTaught};

/// Going back to a level keeps the levels below it settled.
pub fn going_back_keeps_levels_settled()
    ensures { (t s : Assigned) (b : ℕ) → IsUpTo b t s → s.levels ≡ t.levels → s.present ≡ b
        → s.clauses ≡ t.clauses → b ≤ t.present → IsSettledBelow t → IsSettledBelow s }
{}

/// Propagation, which opens no level, keeps them so.
pub fn propagation_keeps_levels_settled()
    ensures { (t s : Assigned) → IsGrown t s → s.present ≡ t.present → s.clauses ≡ t.clauses
        → IsSettledBelow t → IsSettledBelow s }
{}

/// A level that is opened where every live clause is settled keeps them so.
pub fn deciding_keeps_levels_settled()
    ensures { (t s : Assigned) (l : Literal) → IsTrail t → s.lits ≡ t.lits ++ l ∷ []
        → ((m : Literal) → Has t.lits m → level_of s m ≡ level_of t m)
        → level_of s l ≡ t.present + 1 → s.present ≡ t.present + 1 → s.clauses ≡ t.clauses
        → ((k : ℕ) (c : Lits) → clause_at t.clauses k ≡ Some c → IsSettled t.lits c)
        → IsSettledBelow t → IsSettledBelow s }
{}

/// One more live clause that is settled there keeps them so.
pub fn learning_keeps_levels_settled()
    ensures { (t s : Assigned) (j : ℕ) (d : Lits) → HasSameValues t s
        → s.clauses ≡ set t.clauses j (Some d) → j < length t.clauses → IsOpenBelow t d
        → IsSettledBelow t → IsSettledBelow s }
{}

/// So do fewer live clauses.
pub fn forgetting_keeps_levels_settled()
    ensures { (t s : Assigned) → HasSameValues t s
        → ((k : ℕ) (c : Lits) → clause_at s.clauses k ≡ Some c → clause_at t.clauses k ≡ Some c)
        → IsSettledBelow t → IsSettledBelow s }
{}

/// A clause that a conflict teaches isn't live.
pub fn what_is_taught_is_new()
    ensures { (t : Assigned) (c : Lits) (u : Literal) (b n k : ℕ) → IsTrail t → IsSettledBelow t
        → IsTaught t c u b → IsFront t b n → clause_at t.clauses k ≡ Some c → ⊥ }
{}

/// Below the level that the search goes back to, it has two literals without a value.
pub fn what_is_taught_is_open()
    ensures { (t : Assigned) (c : Lits) (u : Literal) (b a n : ℕ) → IsTrail t
        → IsTaught t c u b → a < b → IsFront t a n → IsSettled (take n t.lits) c }
{}

/// A clause in conflict that was settled below the present level has a literal of that level.
pub fn a_conflict_is_of_the_present_level()
    ensures { (t : Assigned) (c : Lits) (n b : ℕ) → IsTrail t → IsConflict t.lits c
        → b + 1 ≡ t.present → IsFront t b n → IsSettled (take n t.lits) c
        → (x : Literal) × Has c x × (level_of t x ≡ t.present) }
{}

/// Each level has a front.
pub fn levels_have_fronts()
    ensures { (t : Assigned) → IsTrail t → (b : ℕ) → (n : ℕ) × IsFront t b n }
{}
