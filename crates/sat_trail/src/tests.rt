mod plain;

ghost use Rattle.std.specs.Prelude.{◌≡◌, ◌<◌, ◌≤◌, IsTrue};
ghost use Rattle.clause_defs.specs.Clauses.{Lits, Has, WithinVariables};

use crate::Trail;
use clause_defs::MAX_VARIABLE;
use pch_base::{Clause, Lit, NoMemory};
use plain::{VARIABLES, consequences, is_true};
use sat_values::{ClauseSet, Clauses};
use std::alloc::Global;
use std::test::Fail;

// Whether no literal has a greater variable.
fn are_over(lits: &[Lit], variables: u32) -> bool
    ensures { IsTrue result → WithinVariables variables lits.now }
{
    for &m in lits {
        if m.variable() > variables {
            return false;
        }
    }
    true
}

// Whether this holds of all clauses.
fn all_are_over(list: &Clauses, variables: u32) -> bool
    ensures { IsTrue result → (c : Lits) → Has list.now c → WithinVariables variables c }
{
    for k in 0..list.len() {
        if !are_over(list.clause(k), variables) {
            return false;
        }
    }
    true
}

// A trail of these clauses, if they are over so many variables, and of so few more.
fn opened(alloc: Global, variables: u32, list: Clauses) -> Result<Option<Trail>, NoMemory>
    requires { variables ≤ MAX_VARIABLE }
{
    if !all_are_over(&list, variables) {
        return Ok(None);
    }
    let set = ClauseSet::from_clauses(alloc, variables, list)?;
    Ok(Some(Trail::open(alloc, &set, 60, 20)?))
}

// Gives a literal its value, if its variable is one of the trail's and has none.
fn assign(trail: &mut Trail, l: Lit) -> bool {
    if l.variable() > trail.variables() {
        return false;
    }
    if trail.holds(l) {
        return false;
    }
    if trail.holds(l.negated()) {
        return false;
    }
    trail.assign(l);
    true
}

// The value, the level and the reason of a variable, if it has a value.
fn mark(trail: &Trail, v: u32) -> Option<(bool, u32, Option<u32>)>
    requires { 1 ≤ v }
{
    if v > trail.variables() {
        return None;
    }
    match trail.value(v) {
        Some(value) => Some((value, trail.level(v), trail.reason(v))),
        None => None,
    }
}

#[test]
fn a_conflict_has_its_reason(rt: HostRuntime) -> Result<(), Fail> {
    let alloc = rt.alloc();
    let mut list = Clauses::new(alloc);
    for signs in [[1, 1], [-1, 1], [1, -1], [-1, -1]] {
        let lits = [
            Lit::from_parts(1, signs[0] == 1),
            Lit::from_parts(2, signs[1] == 1),
        ];
        list.push(&Clause::from_lits(alloc, &lits)?)?;
    }
    let mut trail = match opened(alloc, 2, list)? {
        Some(trail) => trail,
        None => return Err(Fail::from("the clauses are over two variables")),
    };
    assert_eq!(rt; trail.propagate(), None);
    assert!(rt; assign(&mut trail, Lit::new(1)));
    let reason = match trail.propagate() {
        Some(2) => 4,
        Some(4) => 2,
        _ => return Err(Fail::from("clause 2 or 4 is in conflict")),
    };
    assert_eq!(rt; mark(&trail, 1), Some((true, 1, None)));
    assert_eq!(rt; mark(&trail, 2), Some((reason == 2, 1, Some(reason))));
    trail.back_to(0);
    assert_eq!(rt; mark(&trail, 1), None);
    assert_eq!(rt; mark(&trail, 2), None);
    Ok(())
}

// Numbers that look random (a linear congruential generator).
#[derive(Drop)]
struct Numbers {
    state: u32,
}

impl Numbers {
    fn below(&mut self, n: u32) -> u32
        requires { 1 ≤ n }
        ensures { result < n }
    {
        self.state = self
            .state
            .wrapping_mul(1_664_525)
            .wrapping_add(1_013_904_223);
        (self.state >> 16) % n
    }

    fn literal(&mut self) -> Lit {
        let variable = 1 + self.below(VARIABLES);
        Lit::from_parts(variable, self.below(2) == 0)
    }

    fn clause(&mut self, alloc: Global) -> Result<Clause, NoMemory> {
        let first = self.literal();
        let second = self.literal();
        let third = if self.below(2) == 0 {
            first
        } else {
            self.literal()
        };
        Ok(Clause::from_lits(alloc, &[first, second, third])?)
    }
}

// Whether each variable has the value that the plain program found.
fn agree(trail: &Trail, truths: &[bool]) -> bool {
    for v in 1..VARIABLES + 1 {
        if v > trail.variables() {
            return false;
        }
        let value = trail.value(v);
        if (value == Some(true)) != is_true(truths, Lit::from_parts(v, true)) {
            return false;
        }
        if (value == Some(false)) != is_true(truths, Lit::from_parts(v, false)) {
            return false;
        }
    }
    true
}

// A trail, with the clauses and the decisions that a plain program needs.
#[derive(Drop)]
struct Walk {
    trail: Trail,
    clauses: Clauses,
    decisions: Vec<Lit>,
}

impl Walk {
    // A clause comes, a level is opened, or the trail goes back.
    fn step(&mut self, alloc: Global, numbers: &mut Numbers) -> Result<(), NoMemory> {
        match numbers.below(4) {
            0 => {
                let clause = numbers.clause(alloc)?;
                if are_over(clause.lits(), self.trail.variables()) {
                    if self.trail.learn(clause.lits()).is_ok() {
                        self.clauses.push(&clause)?;
                    }
                }
            }
            1 => {
                let level = numbers.below(VARIABLES);
                if level <= self.trail.present() {
                    self.trail.back_to(level);
                    self.decisions.truncate(level as usize);
                }
            }
            _ => {
                let l = numbers.literal();
                if assign(&mut self.trail, l) {
                    self.decisions.push(l)?;
                }
            }
        }
        Ok(())
    }

    // Whether the trail and the plain program come to the same.
    fn agrees(&mut self, alloc: Global) -> Result<bool, NoMemory> {
        let conflict = self.trail.propagate();
        match consequences(alloc, &self.clauses, &self.decisions)? {
            Some(truths) => Ok(conflict.is_none() && agree(&self.trail, &truths)),
            None => Ok(conflict.is_some()),
        }
    }
}

// Whether they do at each of so many steps.
fn walk_agrees(alloc: Global, seed: u32, steps: u32) -> Result<bool, NoMemory> {
    let trail = match opened(alloc, VARIABLES, Clauses::new(alloc))? {
        Some(trail) => trail,
        None => return Ok(false),
    };
    let mut walk = Walk {
        trail,
        clauses: Clauses::new(alloc),
        decisions: Vec::new(alloc),
    };
    let mut numbers = Numbers { state: seed };
    for _ in 0..steps {
        walk.step(alloc, &mut numbers)?;
        if !walk.agrees(alloc)? {
            return Ok(false);
        }
    }
    Ok(true)
}

#[test]
fn a_trail_agrees_with_a_plain_program(rt: HostRuntime) -> Result<(), Fail> {
    for seed in 0..100 {
        assert!(rt; walk_agrees(rt.alloc(), seed, 60)?);
    }
    Ok(())
}
