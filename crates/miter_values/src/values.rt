ghost use Rattle.std.specs.Prelude.{◌≡◌, ℕ, ◌<◌, ◌≤◌, length, IfOk};
ghost use Rattle.net_defs.specs.Networks.{signals};
ghost use Rattle.miter_defs.specs.Equality.{FitsPads};
ghost use Rattle.miter_defs.specs.Numberings.{signal_variable};
ghost use Rattle.miter_defs.specs.Miters.{Miter};
ghost use Rattle.miter_cnf.specs.Numbered.{IsVariable};

use extract::Cells;
use miter_cnf::Numbering;
use miter_places::Places;
use netlist::Net;
use pch_base::NoMemory;
use sat_values::ClauseSet;
use std::alloc::Global;
use std::marker::Model;

/// The two circuits of a miter, with the numbers of its variables and of its clauses. Contracts see
/// the two.
#[derive(Drop)]
pub struct MiterValues<'a> {
    pub(crate) net: &'a Net,
    pub(crate) cells: &'a Cells,
    pub(crate) numbering: Numbering,
    pub(crate) places: Places,
}

impl<'a> Model for MiterValues<'a> {
    ghost use Rattle.miter_cnf.specs.Circuits.{Circuits};
    ghost use Rattle.miter_values.specs.Parts.{HaveNumbers};

    ghost Value = { Circuits };

    ghost view = { λ a. record { net = a.net.now; cells = a.cells.now } };

    ghost invariant = { λ a. HaveNumbers a.net.now a.cells.now a.numbering a.places };
}

impl<'a> MiterValues<'a> {
    /// The numbers of the miter of a net and cells, which `formula` is.
    pub fn new(
        alloc: Global,
        net: &'a Net,
        cells: &'a Cells,
        formula: &ClauseSet,
    ) -> Result<MiterValues<'a>, NoMemory>
        requires fits { FitsPads net.now cells.now.geometry }
        requires formula { formula.now ≡ Miter net.now cells.now }
        ensures circuits { IfOk result (λ a. a ≡ record { net = net.now; cells = cells.now }) }
    {
        let _clauses = formula.len();
        let numbering = Numbering::of(alloc, net, cells)?;
        let places = Places::of(alloc, net, cells, formula)?;
        Ok(MiterValues {
            net,
            cells,
            numbering,
            places,
        })
    }

    /// The variable of signal `s`.
    pub(crate) fn signal(&self, s: u32) -> u32
        requires { s < signals self.now.net }
        ensures variable { result ≡ signal_variable s }
        ensures within { IsVariable result }
    {
        let inputs = self.net.inputs();
        let numbering = &self.numbering;
        if s < inputs {
            numbering.input(s)
        } else {
            numbering.node(s - inputs)
        }
    }
}
