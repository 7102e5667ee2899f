ghost use Rattle.std.specs.Prelude.{◌≡◌, ◌≢◌, false, ℕ, ◌+◌, ◌-◌, ◌^◌, ◌<◌, ◌≤◌, ◌↔◌, ◌⊎◌, [], length, vec_capacity, IfOk, IsTrue};
ghost use Rattle.std.specs.Bool.{OnTrue, OnFalse};
ghost use Rattle.clause_defs.specs.Literals.{Literal};
ghost use Rattle.clause_defs.specs.Clauses.{Has, SameSet, IsOrdered, WithinVariables};
ghost use Rattle.chain_check.specs.Steps.{StepGives};

use pch_base::{Lit, NoMemory};
use std::alloc::Global;
use std::marker::Model;

/// Room for the running clause of a chain, over the variables from 1 to a greatest one.
///
/// Each literal has a number. It stands in the running clause where its number isn't below the
/// chain's first number, so a chain starts without a look at the literals of the one before. Within
/// a chain each step has the next number, by which it tells the literals that it adds from those
/// that were there.
#[derive(Drop)]
pub struct Marks {
    variables: u32,
    numbers: Vec<u32>,
    first: u64,
    current: u64,
    count: usize,
}

impl Model for Marks {
    ghost use Rattle.std.specs.Prelude.{◌-◌, ◌^◌};
    ghost use Rattle.chain_check.specs.Marks.{Marked, literals_where, is_running, is_fresh, IsKept};

    ghost Value = { Marked };

    ghost view = { λ m. record {
      variables = m.variables;
      running = literals_where (is_running m.first m.current) 0 m.numbers.items;
      fresh = literals_where (is_fresh m.current) 0 m.numbers.items;
      left = 2 ^ 32 - m.current;
    } };

    ghost invariant = { λ m. IsKept m.variables m.numbers.items m.first m.current m.count };
}

// The numbers of literals are below this one.
const NUMBERS: u64 = 1 << 32;

/// Where the literals of a running clause clash with another clause.
#[derive(Clone, Copy, Debug, PartialEq, Eq)]
pub(crate) enum Clash {
    /// No literal does.
    NoClash,
    /// One literal does.
    OneClash,
    /// Two or more literals do.
    ManyClash,
}

impl Marks {
    /// Marks for literals up to this variable.
    pub fn new(alloc: Global, variables: u32) -> Result<Marks, NoMemory>
        ensures { IfOk result (λ m. m.variables ≡ variables) }
    {
        let numbers = vec![in alloc; 0; 2 * variables as usize + 2]?;
        Ok(Marks {
            variables,
            numbers,
            first: 1,
            current: 1,
            count: 0,
        })
    }

    /// The greatest variable that a literal may have.
    pub fn variables(&self) -> u32
        ensures { result ≡ self.now.variables }
    {
        self.variables
    }

    /// Empties the running clause, with numbers for this many steps.
    pub(crate) fn clear(&mut self, steps: u32)
        ensures variables { self.new.variables ≡ self.old.variables }
        ensures running { self.new.running ≡ [] }
        ensures fresh { self.new.fresh ≡ [] }
        ensures left { steps ≤ self.new.left }
    {
        if self.current >= NUMBERS - u64::from(steps) {
            return self.reset();
        }
        self.current += 1;
        self.first = self.current;
        self.count = 0;
    }

    /// Empties the running clause and begins the numbers anew.
    fn reset(&mut self)
        ensures variables { self.new.variables ≡ self.old.variables }
        ensures running { self.new.running ≡ [] }
        ensures fresh { self.new.fresh ≡ [] }
        ensures left { self.new.left ≡ 2 ^ 32 - 1 }
    {
        self.numbers.fill(0);
        self.first = 1;
        self.current = 1;
        self.count = 0;
    }

    /// Whether the literal stands in the running clause.
    fn holds(&self, l: Lit) -> bool
        requires { l.variable ≤ self.now.variables }
        ensures { IsTrue result ↔ Has self.now.running l }
    {
        let number = u64::from(self.numbers[l.code() as usize]);
        (self.first..self.current).contains(&number)
    }

    /// Adds a literal in the step in work, and says whether it stood in neither the running clause
    /// nor what the step had added.
    fn add(&mut self, l: Lit) -> bool
        requires within { l.variable ≤ self.old.variables }
        requires room { 0 < self.old.left }
        ensures variables { self.new.variables ≡ self.old.variables }
        ensures running { self.new.running ≡ self.old.running }
        ensures left { self.new.left ≡ self.old.left }
        ensures fresh { (x : Literal)
            → Has self.new.fresh x
            ↔ (Has self.old.fresh x ⊎ ((x ≡ l) × (Has self.old.running x → ⊥))) }
        ensures new { OnTrue result (length self.new.fresh ≡ length self.old.fresh + 1) }
        ensures absent { OnTrue result (Has self.old.running l → ⊥) }
        ensures there { OnFalse result (length self.new.fresh ≡ length self.old.fresh) }
    {
        let place = l.code() as usize;
        let number = u64::from(self.numbers[place]);
        if number >= self.first {
            return false;
        }
        self.numbers[place] = self.current as u32;
        true
    }

    /// Puts what the step adds, which is this many literals, into the running clause.
    fn settle(&mut self, added: usize)
        requires counted { added ≡ length self.old.fresh }
        requires room { 0 < self.old.left }
        ensures variables { self.new.variables ≡ self.old.variables }
        ensures running { (x : Literal) → Has self.new.running x
            ↔ (Has self.old.running x ⊎ Has self.old.fresh x) }
        ensures fresh { self.new.fresh ≡ [] }
        ensures left { self.new.left + 1 ≡ self.old.left }
    {
        self.count += added;
        self.current += 1;
    }

    /// Takes a literal out of the running clause, and says whether it stood there.
    fn remove(&mut self, l: Lit) -> bool
        requires within { l.variable ≤ self.old.variables }
        requires between_steps { self.old.fresh ≡ [] }
        ensures variables { self.new.variables ≡ self.old.variables }
        ensures running { (x : Literal) → Has self.new.running x
            ↔ (Has self.old.running x × (x ≢ l)) }
        ensures fresh { self.new.fresh ≡ [] }
        ensures left { self.new.left ≡ self.old.left }
        ensures found { IsTrue result ↔ Has self.old.running l }
        ensures fewer { OnTrue result (length self.new.running + 1 ≡ length self.old.running) }
        ensures same { OnFalse result (self.new.running ≡ self.old.running) }
    {
        let place = l.code() as usize;
        let number = u64::from(self.numbers[place]);
        if number < self.first {
            return false;
        }
        self.numbers[place] = 0;
        self.count -= 1;
        true
    }

    /// How many literals the running clause has.
    pub(crate) fn len(&self) -> usize
        ensures len { result ≡ length self.now.running }
        ensures ordered { IsOrdered self.now.running }
    {
        self.count
    }

    /// Whether no literal stands in the running clause.
    pub(crate) fn is_empty(&self) -> bool
        ensures { IsTrue result ↔ (self.now.running ≡ []) }
    {
        self.count == 0
    }

    /// Makes a clause the running clause, where there is none.
    pub(crate) fn load(&mut self, c: &[Lit])
        requires within { WithinVariables self.old.variables c.now }
        requires empty { self.old.running ≡ [] }
        requires between_steps { self.old.fresh ≡ [] }
        requires room { 0 < self.old.left }
        ensures variables { self.new.variables ≡ self.old.variables }
        ensures running { SameSet self.new.running c.now }
        ensures fresh { self.new.fresh ≡ [] }
        ensures left { self.new.left + 1 ≡ self.old.left }
    {
        let mut added = 0;
        for &l in c {
            if self.add(l) {
                added += 1;
            }
        }
        self.settle(added);
    }

    /// Resolves the running clause with another clause, where one literal clashes.
    pub(crate) fn resolve(&mut self, c: &[Lit]) -> Clash
        requires within { WithinVariables self.old.variables c.now }
        requires between_steps { self.old.fresh ≡ [] }
        requires room { 0 < self.old.left }
        ensures variables { self.new.variables ≡ self.old.variables }
        ensures step { StepGives self.old.running c.now result self.new.running }
        ensures fresh { result ≡ Clash.OneClash → self.new.fresh ≡ [] }
        ensures left { result ≡ Clash.OneClash → self.new.left + 1 ≡ self.old.left }
    {
        let mut pivot = None;
        let mut added = 0;
        let mut repeats = false;
        for &l in c {
            let opposite = l.negated();
            if !self.holds(opposite) {
                if self.add(l) {
                    added += 1;
                } else {
                    repeats = true;
                }
                continue;
            }
            match pivot {
                None => pivot = Some(opposite),
                Some(other) => {
                    if other != opposite {
                        return Clash::ManyClash;
                    }
                }
            }
        }
        self.settle(added);
        let Some(pivot) = pivot else {
            return Clash::NoClash;
        };
        if !has_pivot(c, pivot, repeats) {
            self.remove(pivot);
        }
        Clash::OneClash
    }

    /// Whether the running clause is this one, as a set. Takes the clause's literals out of it, so
    /// that nothing is left where the two are the same.
    pub(crate) fn comes_to(&mut self, c: &[Lit]) -> bool
        requires within { WithinVariables self.old.variables c.now }
        requires ordered { IsOrdered c.now }
        requires between_steps { self.old.fresh ≡ [] }
        ensures variables { self.new.variables ≡ self.old.variables }
        ensures same { IsTrue result ↔ SameSet self.old.running c.now }
    {
        for &l in c {
            if !self.remove(l) {
                return false;
            }
        }
        self.is_empty()
    }

    /// Moves the literals of a clause that stand in the running clause to the end of a list with room
    /// for the whole running clause.
    pub(crate) fn move_to(&mut self, c: &[Lit], list: &mut Vec<Lit>)
        requires within { WithinVariables self.old.variables c.now }
        requires between_steps { self.old.fresh ≡ [] }
        requires room { length list.old.items + length self.old.running ≤ vec_capacity list.old }
        ensures variables { self.new.variables ≡ self.old.variables }
        ensures fresh { self.new.fresh ≡ [] }
        ensures left { self.new.left ≡ self.old.left }
        ensures running { (x : Literal)
            → Has self.new.running x ↔ (Has self.old.running x × (Has c.now x → ⊥)) }
        ensures moved { (x : Literal)
            → Has list.new.items x
            ↔ (Has list.old.items x ⊎ (Has self.old.running x × Has c.now x)) }
        ensures all { length list.new.items + length self.new.running
            ≡ length list.old.items + length self.old.running }
        ensures room { vec_capacity list.new ≡ vec_capacity list.old }
    {
        for &l in c {
            if self.remove(l) {
                list.push_reserved(l);
            }
        }
    }
}

/// Whether the pivot of a step stands in the clause. It does only where the clause repeats a literal of
/// the running clause, so that most clauses aren't gone over again.
fn has_pivot(c: &[Lit], pivot: Lit, repeats: bool) -> bool
    requires { repeats ≡ false → Has c.now pivot → ⊥ }
    ensures { IsTrue result ↔ Has c.now pivot }
{
    repeats && has(c, pivot)
}

/// Whether the literal stands in the clause.
fn has(c: &[Lit], l: Lit) -> bool
    ensures { IsTrue result ↔ Has c.now l }
{
    for &m in c {
        if m == l {
            return true;
        }
    }
    false
}
