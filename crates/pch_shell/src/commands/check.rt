//! `check CNF TRACE`: the bytes of both files are read, and the trace is checked.

ghost use Rattle.std.specs.Prelude.{◌≡◌, ◌≢◌, IfOk, codes};
ghost use Rattle.sat_text_defs.specs.declared.errors.CnfError.{CnfError};
ghost use Rattle.sat_text_defs.specs.declared.errors.TraceError.{TraceError};
ghost use Rattle.pch_lines.specs.Lines.{and_word};
ghost use Rattle.pch_lines.specs.FaultLines.{cnf_line, trace_line};
ghost use Rattle.pch_shell.specs.Outcomes.{bad_input};
ghost use Rattle.pch_shell.specs.Check.{CheckDue};

use crate::ending::Ending;
use chain_check::check_trace;
use clause_defs::Verdict;
use pch_base::NoMemory;
use pch_lines::{Line, cnf_line, trace_line, verdict_line};
use sat_text::{CnfError, TraceError, read_cnf, read_compact};
use sat_values::ClauseSet;
use std::alloc::Global;

/// Reads the bytes of both files, and checks. Each file's bytes are let go once they were read.
pub fn run(
    alloc: Global,
    cnf: &str,
    trace: &str,
    cnf_bytes: Vec<u8>,
    trace_bytes: Vec<u8>,
) -> Result<Ending, NoMemory>
    ensures { IfOk result (CheckDue cnf.now trace.now cnf_bytes.items trace_bytes.items) }
{
    let formula = match read_cnf(alloc, &cnf_bytes) {
        Ok(formula) => formula,
        Err(error) => return bad_cnf(alloc, cnf, error),
    };
    drop(cnf_bytes);
    let steps = match read_compact(alloc, &trace_bytes) {
        Ok(steps) => steps,
        Err(error) => return bad_trace(alloc, trace, error),
    };
    drop(trace_bytes);
    let originals = ClauseSet::from_clauses(alloc, formula.variables, formula.clauses)?;
    match check_trace(alloc, &originals, &steps)? {
        Verdict::Refutes => Ok(Ending::done(Line::new(alloc, "verified")?.end()?)),
        verdict => Ok(Ending::refused(verdict_line(alloc, verdict)?)),
    }
}

/// The CNF has a fault.
fn bad_cnf(alloc: Global, name: &str, error: CnfError) -> Result<Ending, NoMemory>
    ensures ending { IfOk result (λ e.
        e ≡ bad_input (cnf_line (and_word (codes "cnf") name.now) error)) }
    ensures fault { IfOk result (λ _. error ≢ CnfError.NoMemory) }
{
    let front = Line::new(alloc, "cnf")?.word(name)?;
    Ok(Ending::bad_input(cnf_line(front, error)?))
}

/// The trace has a fault.
fn bad_trace(alloc: Global, name: &str, error: TraceError) -> Result<Ending, NoMemory>
    ensures ending { IfOk result (λ e.
        e ≡ bad_input (trace_line (and_word (codes "trace") name.now) error)) }
    ensures fault { IfOk result (λ _. error ≢ TraceError.NoMemory) }
{
    let front = Line::new(alloc, "trace")?.word(name)?;
    Ok(Ending::bad_input(trace_line(front, error)?))
}
