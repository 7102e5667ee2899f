ghost use Rattle.std.specs.Prelude.{◌≡◌, ◌≢◌, ℕ, ◌+◌, ◌^◌, ◌<◌, ◌≤◌, ◌++◌, ◌↔◌, false, IsTrue, [], ◌∷◌, get_or, length, max, vec_len, vec_capacity, Some, None, OnOk, OnErr};
ghost use Rattle.clause_defs.specs.Literals.{Literal, IsLiteral};
ghost use Rattle.clause_defs.specs.Clauses.{Has, IsOrdered, IsClause, WithinVariables};
ghost use Rattle.clause_defs.specs.Traces.{IsTrace, IsCompactAt, index_at, lits_at, antecedents_at};
ghost use Rattle.sat_values.specs.TraceArrays.{greatest_of, greatest_variable};

use crate::columns::Columns;
use clause_defs::{MAX_CLAUSES, MAX_INDEX};
use pch_base::{Lit, NoMemory};
use std::alloc::Global;
use std::marker::Model;

/// A trace: clauses with indices, literals and antecedents, which are places of earlier clauses. Where
/// the sign `*` stands in place of a clause's literals, the clause is what its antecedents give.
///
/// Contracts see it as the list of its entries, of which the type keeps `IsTrace`.
#[derive(Debug, Drop)]
pub struct Trace {
    // A clause with the sign has no literals here.
    columns: Columns,
    // Whether the sign stands, by place; it doesn't past the end, so that a trace with stated literals
    // alone has none.
    signs: Vec<bool>,
    greatest: u32,
}

impl Model for Trace {
    ghost use Rattle.std.specs.Prelude.{List};
    ghost use Rattle.clause_defs.specs.Traces.{Entry};
    ghost use Rattle.sat_values.specs.TraceArrays.{entries_of, AreTrace};

    ghost Value = { List Entry };

    ghost view = { λ t. entries_of t.columns.indices.items t.columns.lits.lists
        t.columns.antecedents.lists t.signs.items };

    ghost invariant = { λ t. AreTrace t.columns.indices.items t.columns.lits.lists
        t.columns.antecedents.lists t.signs.items t.greatest };
}

impl Trace {
    /// The trace without clauses. Takes no memory.
    pub fn empty(alloc: Global) -> Trace
        ensures { result ≡ [] }
    {
        Trace {
            columns: Columns::new(alloc),
            signs: Vec::new(alloc),
            greatest: 0,
        }
    }

    /// Makes room for so many clauses, literals and antecedents more, if there is memory for it, so that
    /// lists needn't be moved as they grow. What isn't used of it isn't touched.
    pub fn make_room(&mut self, clauses: usize, literals: usize, antecedents: usize)
        ensures { self.new ≡ self.old }
    {
        self.columns.make_room(clauses, literals, antecedents);
    }

    /// How many clauses there are.
    pub fn len(&self) -> u32
        ensures len { result ≡ length self.now }
        ensures few { result ≤ MAX_CLAUSES }
        ensures trace { IsTrace self.now }
    {
        self.columns.lits.len()
    }

    /// The index of the clause at place `k`, counted from 0.
    pub fn index(&self, k: u32) -> u32
        requires { k < length self.now }
        ensures index { result ≡ index_at self.now k }
        ensures trace { IsTrace self.now }
    {
        self.columns.indices[k as usize]
    }

    /// Whether the sign `*` stands in place of the literals of the clause at place `k`, counted from 0.
    pub fn is_compact(&self, k: u32) -> bool
        requires { k < length self.now }
        ensures sign { IsTrue result ↔ IsCompactAt self.now k }
        ensures trace { IsTrace self.now }
    {
        let at = k as usize;
        if at >= self.signs.len() {
            return false;
        }
        self.signs[at]
    }

    /// The literals that are stated for the clause at place `k`, counted from 0: none where the sign
    /// stands.
    pub fn lits(&self, k: u32) -> &[Lit]
        requires { k < length self.now }
        ensures lits { result.now ≡ lits_at self.now k }
        ensures clause { IsClause result.now }
    {
        self.columns.lits.get(k)
    }

    /// The places of the antecedents of the clause at place `k`, counted from 0.
    pub fn antecedents(&self, k: u32) -> &[u32]
        requires { k < length self.now }
        ensures antecedents { result.now ≡ antecedents_at self.now k }
        ensures earlier { (p : ℕ) → Has result.now p → p < k }
        ensures few { length result.now < 2 ^ 32 }
    {
        self.columns.antecedents.get(k)
    }

    /// The greatest variable of the stated literals, or 0 where there are none.
    pub fn greatest_variable(&self) -> u32
        ensures greatest { result ≡ greatest_variable self.now }
        ensures within { (k : ℕ) → WithinVariables result (lits_at self.now k) }
    {
        self.greatest
    }

    /// Appends a clause with stated literals. After `NoMemory` the trace is as before.
    pub fn push(&mut self, index: u32, lits: &[Lit], antecedents: &[u32]) -> Result<(), NoMemory>
        requires low { 1 ≤ index }
        requires high { index ≤ MAX_INDEX }
        requires other { (k : ℕ) → k < length self.old → index_at self.old k ≢ index }
        requires ordered { IsOrdered lits.now }
        requires earlier { (p : ℕ) → Has antecedents.now p → p < length self.old }
        ensures ok { OnOk result (self.new ≡ self.old ++ record {
          index = index;
          stated = Some lits.now;
          antecedents = antecedents.now;
        } ∷ []) }
        ensures err { OnErr result (self.new ≡ self.old) }
    {
        let greatest = greatest_with(self.greatest, lits);
        self.columns.push(index, lits, antecedents)?;
        self.greatest = greatest;
        Ok(())
    }

    /// Appends a clause with the sign in place of its literals. After `NoMemory` the trace is as before.
    pub fn push_compact(&mut self, index: u32, antecedents: &[u32]) -> Result<(), NoMemory>
        requires low { 1 ≤ index }
        requires high { index ≤ MAX_INDEX }
        requires other { (k : ℕ) → k < length self.old → index_at self.old k ≢ index }
        requires derived { antecedents.now ≢ [] }
        requires earlier { (p : ℕ) → Has antecedents.now p → p < length self.old }
        ensures ok { OnOk result (self.new ≡ self.old ++ record {
          index = index;
          stated = None;
          antecedents = antecedents.now;
        } ∷ []) }
        ensures err { OnErr result (self.new ≡ self.old) }
    {
        fill(&mut self.signs, self.columns.indices.len())?;
        self.columns.push(index, &[], antecedents)?;
        self.signs.push_reserved(true);
        Ok(())
    }
}

/// Makes the list as long as told by `false`, and makes room for one more.
fn fill(signs: &mut Vec<bool>, len: usize) -> Result<(), NoMemory>
    requires { length signs.old.items ≤ len }
    ensures same { (k : ℕ) → get_or signs.new.items k false ≡ get_or signs.old.items k false }
    ensures within { length signs.new.items ≤ len }
    ensures filled { OnOk result (length signs.new.items ≡ len) }
    ensures room { OnOk result (vec_len signs.new < vec_capacity signs.new) }
{
    signs.resize(len, false)?;
    signs.reserve(1)?;
    Ok(())
}

// The greatest of a number and the variables of the literals.
fn greatest_with(first: u32, lits: &[Lit]) -> u32
    ensures greatest { result ≡ max first (greatest_of lits.now) }
    ensures literals { (l : Literal) → Has lits.now l → IsLiteral l }
{
    let mut greatest = first;
    for l in lits {
        greatest = greatest.max(l.variable());
    }
    greatest
}
