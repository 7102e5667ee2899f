//! The search from its root.

ghost use Rattle.std.specs.Prelude.{◌≡◌, IfOk};
ghost use Rattle.cell_defs.specs.Cells.{CellsValue};
ghost use Rattle.cell_defs.specs.Sources.{AreCellsOf};
ghost use Rattle.log_defs.specs.Logs.{Extends};
ghost use Rattle.miter_defs.specs.Equality.{FitsPads};
ghost use Rattle.miter_defs.specs.Miters.{Miter};
ghost use Rattle.tree_defs.specs.Trees.{TreeEnds};

use crate::search::Search;
use extract::extract;
use fabric::Config;
use netlist::Net;
use pch_base::{Bits, NoMemory};
use proof_log::Log;
use std::alloc::Global;
use tree_defs::TreeEnd;

/// Searches a refutation of the miter of a net and a configuration, whose clauses are the log's
/// originals.
///
/// After any end, want of memory too, the log keeps what it had and may have more clauses.
pub fn tree(alloc: Global, net: &Net, config: &Config, log: &mut Log) -> Result<TreeEnd, NoMemory>
    requires fits { FitsPads net.now config.now.geometry }
    requires miter { (cells : CellsValue) → AreCellsOf config.now cells
        → log.old.originals ≡ Miter net.now cells }
    ensures ends { IfOk result (λ end. TreeEnds net.now config.now log.old end log.new) }
    ensures extends { Extends log.old log.new }
{
    let _geometry = config.geometry();
    let cells = extract(alloc, config)?;
    let mut search = Search::new(alloc, net, &cells, log)?;
    match search.branch(0, Bits::new(0, net.inputs()), log) {
        Ok(index) => Ok(TreeEnd::Empty { index }),
        Err(end) => Ok(end),
    }
}
