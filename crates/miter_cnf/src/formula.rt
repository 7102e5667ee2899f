//! The miter, clause after clause, as a list and as a set that can be asked for its clauses.

ghost use Rattle.std.specs.Prelude.{◌≡◌, ◌≤◌, ◌↔◌, IsTrue, IfOk};
ghost use Rattle.clause_defs.specs.Clauses.{Lits, Has, WithinVariables, Unsat};
ghost use Rattle.clause_defs.specs.declared.verdict.TheConstants.{MAX_VARIABLE};
ghost use Rattle.fabric_defs.specs.Configurations.{ConfigValue, IsConfig};
ghost use Rattle.cell_defs.specs.Sources.{AreSourcesOf};
ghost use Rattle.miter_defs.specs.Equality.{FitsPads, Equal};
ghost use Rattle.miter_defs.specs.Numberings.{variable_count};
ghost use Rattle.miter_defs.specs.Miters.{Miter};

use crate::circuits::Circuits;
use crate::writer::Writer;
use extract::Cells;
use fabric::Geometry;
use netlist::Net;
use pch_base::NoMemory;
use sat_values::{ClauseSet, Clauses, Cnf};
use std::alloc::Global;

/// Whether a fabric has a pad for each input and each output of a net.
pub fn fits_pads(net: &Net, g: Geometry) -> bool
    ensures { IsTrue result ↔ FitsPads net.now g }
{
    net.inputs() <= g.i() && net.outputs() <= g.o()
}

impl<'a> Circuits<'a> {
    /// All clauses.
    fn clauses(&self, alloc: Global) -> Result<Clauses, NoMemory>
        ensures { IfOk result (λ clauses. clauses ≡ (Miter self.now.net self.now.cells).clauses) }
    {
        let mut w = Writer::new(alloc);
        w.write(&[self.zero().negated()])?;
        self.write_nodes(&mut w)?;
        self.write_cells(alloc, &mut w)?;
        self.write_outputs(&mut w)?;
        self.write_some_difference(&mut w)?;
        let Writer { clauses, .. } = w;
        Ok(clauses)
    }
}

/// The clauses of the miter of a net and the cells of a configuration as a list, for whoever only reads
/// or prints them. The fabric has a pad for each input and output of the net. If no assignment satisfies
/// the clauses, the two compute the same for every input.
pub fn miter_clauses(alloc: Global, net: &Net, cells: &Cells) -> Result<Cnf, NoMemory>
    requires { FitsPads net.now cells.now.geometry }
    ensures variables { IfOk result (λ f. f.variables ≡ variable_count net.now cells.now) }
    ensures clauses { IfOk result (λ f. f.clauses ≡ (Miter net.now cells.now).clauses) }
    ensures few_variables { IfOk result (λ f. f.variables ≤ MAX_VARIABLE) }
    ensures within { IfOk result (λ f.
        (c : Lits) → Has f.clauses c → WithinVariables f.variables c) }
    ensures sound { IfOk result (λ f. (config : ConfigValue)
        → IsConfig config → AreSourcesOf config cells.now
        → Unsat f.variables f.clauses → Equal net.now config) }
{
    let circuits = Circuits::of(alloc, net, cells)?;
    let numbering = &circuits.numbering;
    Ok(Cnf {
        variables: numbering.variables(),
        clauses: circuits.clauses(alloc)?,
    })
}

/// The miter of a net and the cells of a configuration, where the fabric has a pad for each input and
/// output of the net. If no assignment satisfies it, the two compute the same for every input.
pub fn miter(alloc: Global, net: &Net, cells: &Cells) -> Result<ClauseSet, NoMemory>
    requires { FitsPads net.now cells.now.geometry }
    ensures formula { IfOk result (λ s. s ≡ Miter net.now cells.now) }
    ensures sound { IfOk result (λ s. (config : ConfigValue)
        → IsConfig config → AreSourcesOf config cells.now
        → Unsat s.variables s.clauses → Equal net.now config) }
{
    let Cnf { variables, clauses } = miter_clauses(alloc, net, cells)?;
    ClauseSet::from_clauses(alloc, variables, clauses)
}
