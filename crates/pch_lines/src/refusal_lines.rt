//! The lines that begin with `refused`: what a trace shows in place of a refutation, and why a bundle
//! isn't accepted.

ghost use Rattle.std.specs.Prelude.{◌≡◌, ◌≢◌, IfOk};
ghost use Rattle.clause_defs.specs.declared.verdict.Verdict.TheVariants.{Refutes};
ghost use Rattle.pch_lines.specs.RefusalLines.{verdict_line, refusal_line};

use crate::bundle_lines::{bundle_line, config_line};
use crate::formula_lines::trace_line;
use crate::line::Line;
use clause_defs::{ChainError, Verdict};
use pch_base::NoMemory;
use std::alloc::Global;
use verify_defs::Refusal;

/// The line of a verdict that isn't a yes.
pub fn verdict_line(alloc: Global, verdict: Verdict) -> Result<Vec<u8>, NoMemory>
    requires { verdict ≢ Verdict.Refutes }
    ensures { IfOk result (λ text. text.items ≡ verdict_line verdict) }
{
    let line = Line::new(alloc, "refused")?;
    match verdict {
        Verdict::NotOriginal { clause } => line.word("not-original")?.number(clause)?.end(),
        Verdict::Chain(ChainError::NoClash { clause, step }) => {
            line.word("no-clash")?.number(clause)?.number(step)?.end()
        }
        Verdict::Chain(ChainError::ManyClash { clause, step }) => {
            line.word("many-clash")?.number(clause)?.number(step)?.end()
        }
        Verdict::Chain(ChainError::Other { clause }) => {
            line.word("other-clause")?.number(clause)?.end()
        }
        Verdict::TooWide { clause } => line.word("too-wide")?.number(clause)?.end(),
        Verdict::NotEmptyEnd => line.word("not-empty-end")?.end(),
        Verdict::Refutes => unreachable!(),
    }
}

/// The line of a refusal. None is printed for want of memory.
pub fn refusal_line(alloc: Global, refusal: Refusal) -> Result<Vec<u8>, NoMemory>
    requires { (v : Verdict) → refusal ≡ Refusal.Verdict v → v ≢ Refutes }
    ensures line { IfOk result (λ text. text.items ≡ refusal_line refusal) }
    ensures fault { IfOk result (λ _. refusal ≢ Refusal.NoMemory) }
{
    let front = Line::new(alloc, "refused")?;
    match refusal {
        Refusal::Pads => front.word("pads")?.end(),
        Refusal::Bundle(error) => bundle_line(front.word("bundle")?, error),
        Refusal::OtherFabric => front.word("other-fabric")?.end(),
        Refusal::Config(error) => config_line(front, error),
        Refusal::Trace(error) => trace_line(front.word("trace")?, error),
        Refusal::Verdict(verdict) => verdict_line(alloc, verdict),
        Refusal::NoMemory => Err(NoMemory),
    }
}
