ghost use Rattle.std.specs.Prelude.{◌≡◌, ℕ, ◌<◌, ◌++◌, length, IfOk, OnOk};
ghost use Rattle.std.specs.List.{flat_map};
ghost use Rattle.clause_defs.specs.Clauses.{Has};
ghost use Rattle.clause_defs.specs.Traces.{index_at, stated_at, antecedents_at};
ghost use Rattle.sat_text_defs.specs.Printed.{number_text, literal_text, line_of, cnf_text, stated_text, entry_text, trace_text};
ghost use Rattle.sat_values.specs.CnfFormula.{formula_of};

use pch_base::{Lit, NoMemory, print_number};
use sat_values::{Cnf, Trace};
use std::alloc::Global;

/// Prints a CNF: `p cnf`, the number of variables and of clauses on a line, and a line per clause with
/// its literals in order and `0`.
pub fn print_cnf(alloc: Global, c: &Cnf) -> Result<Vec<u8>, NoMemory>
    ensures { IfOk result (λ text. text.items ≡ cnf_text (formula_of c.now)) }
{
    let mut out = b"p cnf ".to_vec(alloc)?;
    print_number_text(c.variables, &mut out)?;
    print_number(u64::from(c.clauses.len()), &mut out)?;
    out.push(b'\n')?;
    for k in 0..c.clauses.len() {
        print_line(c.clauses.clause(k), &mut out)?;
    }
    Ok(out)
}

/// Prints a trace: a line per clause with its index, its literals in order and `0`, or the sign `*` in
/// their place, the indices of its antecedents, and `0`.
pub fn print_trace(alloc: Global, t: &Trace) -> Result<Vec<u8>, NoMemory>
    ensures { IfOk result (λ text. text.items ≡ trace_text t.now) }
{
    let mut out = Vec::new(alloc);
    for k in 0..t.len() {
        print_entry(t, k, &mut out)?;
    }
    Ok(out)
}

fn print_entry(t: &Trace, k: u32, out: &mut Vec<u8>) -> Result<(), NoMemory>
    requires { k < length t.now }
    ensures { OnOk result (out.new.items ≡ out.old.items
        ++ entry_text t.now (index_at t.now k) (stated_at t.now k) (antecedents_at t.now k)) }
{
    print_number_text(t.index(k), out)?;
    print_stated(t, k, out)?;
    print_antecedents(t, t.antecedents(k), out)?;
    out.extend_from_slice(b"0\n")?;
    Ok(())
}

fn print_stated(t: &Trace, k: u32, out: &mut Vec<u8>) -> Result<(), NoMemory>
    requires { k < length t.now }
    ensures { OnOk result (out.new.items ≡ out.old.items ++ stated_text (stated_at t.now k)) }
{
    if t.is_compact(k) {
        out.extend_from_slice(b"* ")?;
        return Ok(());
    }
    print_lits(t.lits(k), out)?;
    out.extend_from_slice(b"0 ")?;
    Ok(())
}

fn print_antecedents(t: &Trace, antecedents: &[u32], out: &mut Vec<u8>) -> Result<(), NoMemory>
    requires { (p : ℕ) → Has antecedents.now p → p < length t.now }
    ensures { OnOk result (out.new.items
        ≡ out.old.items ++ flat_map (λ p. number_text (index_at t.now p)) antecedents.now) }
{
    for place in antecedents {
        print_number_text(t.index(*place), out)?;
    }
    Ok(())
}

fn print_line(lits: &[Lit], out: &mut Vec<u8>) -> Result<(), NoMemory>
    ensures { OnOk result (out.new.items ≡ out.old.items ++ line_of lits.now) }
{
    print_lits(lits, out)?;
    out.extend_from_slice(b"0\n")?;
    Ok(())
}

fn print_lits(lits: &[Lit], out: &mut Vec<u8>) -> Result<(), NoMemory>
    ensures { OnOk result (out.new.items ≡ out.old.items ++ flat_map literal_text lits.now) }
{
    for l in lits {
        print_literal_text(*l, out)?;
    }
    Ok(())
}

fn print_literal_text(l: Lit, out: &mut Vec<u8>) -> Result<(), NoMemory>
    ensures { OnOk result (out.new.items ≡ out.old.items ++ literal_text l) }
{
    if !l.is_positive() {
        out.push(b'-')?;
    }
    print_number_text(l.variable(), out)
}

fn print_number_text(n: u32, out: &mut Vec<u8>) -> Result<(), NoMemory>
    ensures { OnOk result (out.new.items ≡ out.old.items ++ number_text n) }
{
    print_number(u64::from(n), out)?;
    out.push(b' ')?;
    Ok(())
}
