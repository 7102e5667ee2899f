ghost use Rattle.std.specs.Prelude.{IfOk};
ghost use Rattle.net_defs.specs.Nets.{IsNet};
ghost use Rattle.net_defs.specs.Interfaces.{Pairs};
ghost use Rattle.net_defs.specs.Alignments.{IsAligned, HasOutputsOf};

use crate::moves::{Moves, names_at};
use crate::net::Net;
use crate::network::Network;
use crate::pairing::Pairing;
use pch_base::NoMemory;
use std::alloc::Global;

impl Network {
    /// The same nodes, with inputs and outputs in the order of their partners.
    fn aligned(&self, alloc: Global, p: &Pairing) -> Result<Network, NoMemory>
        requires net { IsNet self.now }
        requires pairs { Pairs self.now p.now }
        ensures { IfOk result (IsAligned self.now p.now) }
    {
        let moves = Moves::new(alloc, p.inputs())?;
        Ok(Network {
            inputs: names_at(alloc, self.inputs(), p.inputs())?,
            nodes: moves.nodes(alloc, self.nodes())?,
            outputs: moves.outputs_at(alloc, self.outputs(), p.outputs())?,
        })
    }
}

impl Net {
    /// The same nodes, with inputs and outputs in the order of the specification that `p` pairs with
    /// this net. Its outputs are those of this net under the pairing (`HasOutputsOf`).
    pub fn aligned(&self, alloc: Global, p: &Pairing) -> Result<Net, NoMemory>
        requires { Pairs self.now p.now }
        ensures aligned { IfOk result (IsAligned self.now p.now) }
        ensures outputs { IfOk result (HasOutputsOf self.now p.now) }
    {
        let network = self.network().aligned(alloc, p)?;
        let order = self.order().to_vec(alloc)?;
        Ok(Net::new(network, order))
    }
}
