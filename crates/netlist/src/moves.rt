ghost use Rattle.std.specs.Prelude.{◌≡◌, ◌<◌, length, All, IfOk};
ghost use Rattle.net_defs.specs.Interfaces.{StandAt};

use crate::copies::{copies_of_rows, copy_of_name};
use crate::network::{NetNode, NetOutput};
use pch_base::{Name, NoMemory};
use std::alloc::{AllocError, Global};
use std::marker::Model;

/// Where the signals of a net come to once its inputs stand in another order. Contracts see the new
/// place of each input.
#[derive(Drop)]
pub(crate) struct Moves {
    new_places: Vec<u32>,
}

impl Model for Moves {
    ghost use Rattle.std.specs.Prelude.{ℕ, List};

    ghost Value = { List ℕ };

    ghost view = { λ m. m.new_places.items };
}

/// The names at these places.
pub(crate) fn names_at(alloc: Global, names: &[Name], places: &[u32]) -> Result<Vec<Name>, NoMemory>
    requires { All (λ k. k < length names.now) places.now }
    ensures { IfOk result (λ found. StandAt names.now places.now found.items) }
{
    let mut found = Vec::with_capacity(alloc, places.len())?;
    for place in places {
        let name = &names[*place as usize];
        found.push(copy_of_name(alloc, name)?)?;
    }
    Ok(found)
}

impl Moves {
    ghost use Rattle.std.specs.Prelude.{ℕ, ◌≤◌, List};
    ghost use Rattle.std.specs.List.{AllZip};
    ghost use Rattle.blif_defs.specs.declared.mark.TheConstants.{MAX_PORTS};
    ghost use Rattle.net_defs.specs.Interfaces.{IsRearrangement};
    ghost use Rattle.net_defs.specs.Alignments.{IsMoved, IsMovedNode, IsMovedOutput, IsOutputFrom};
    ghost use Rattle.netlist.specs.Moves.{IsInverse};

    /// Input `places[i]` comes to place `i`.
    pub(crate) fn new(alloc: Global, places: &[u32]) -> Result<Moves, AllocError>
        requires few { length places.now ≤ MAX_PORTS }
        requires each { IsRearrangement (length places.now) places.now }
        ensures { IfOk result (IsInverse places.now) }
    {
        let mut new_places = vec![in alloc; 0; places.len()]?;
        for (i, place) in places.iter().enumerate() {
            new_places[*place as usize] = i as u32;
        }
        Ok(Moves { new_places })
    }

    /// What signal `s` comes to: an input to its new place, and a node to itself.
    fn signal(&self, s: u32) -> u32
        ensures { (places : List ℕ) → IsInverse places self.now → IsMoved places s result }
    {
        if (s as usize) < self.new_places.len() {
            self.new_places[s as usize]
        } else {
            s
        }
    }

    /// What the fan-ins come to.
    fn fan_ins(&self, alloc: Global, fan_ins: &[u32]) -> Result<Vec<u32>, NoMemory>
        ensures { IfOk result (λ moved. (places : List ℕ) → IsInverse places self.now
            → AllZip (IsMoved places) fan_ins.now moved.items) }
    {
        let mut moved = Vec::with_capacity(alloc, fan_ins.len())?;
        for s in fan_ins {
            moved.push(self.signal(*s))?;
        }
        Ok(moved)
    }

    /// The node with its fan-ins moved.
    fn node(&self, alloc: Global, node: &NetNode) -> Result<NetNode, NoMemory>
        ensures { IfOk result (λ moved. (places : List ℕ) → IsInverse places self.now
            → IsMovedNode places node.now moved) }
    {
        Ok(NetNode {
            fan_ins: self.fan_ins(alloc, node.fan_ins())?,
            on: node.on(),
            rows: copies_of_rows(alloc, node.rows())?,
        })
    }

    /// The nodes with their fan-ins moved.
    pub(crate) fn nodes(&self, alloc: Global, nodes: &[NetNode]) -> Result<Vec<NetNode>, NoMemory>
        ensures { IfOk result (λ moved. (places : List ℕ) → IsInverse places self.now
            → AllZip (IsMovedNode places) nodes.now moved.items) }
    {
        let mut moved = Vec::with_capacity(alloc, nodes.len())?;
        for node in nodes {
            moved.push(self.node(alloc, node)?)?;
        }
        Ok(moved)
    }

    /// The output with its signal moved.
    fn output(&self, alloc: Global, output: &NetOutput) -> Result<NetOutput, NoMemory>
        ensures { IfOk result (λ moved. (places : List ℕ) → IsInverse places self.now
            → IsMovedOutput places output.now moved) }
    {
        Ok(NetOutput {
            name: copy_of_name(alloc, &output.name)?,
            signal: self.signal(output.signal),
        })
    }

    /// The outputs at these places, with their signals moved.
    pub(crate) fn outputs_at(
        &self,
        alloc: Global,
        outputs: &[NetOutput],
        order: &[u32],
    ) -> Result<Vec<NetOutput>, NoMemory>
        requires { All (λ k. k < length outputs.now) order.now }
        ensures { IfOk result (λ moved. (places : List ℕ) → IsInverse places self.now
            → AllZip (IsOutputFrom outputs.now places) order.now moved.items) }
    {
        let mut moved = Vec::with_capacity(alloc, order.len())?;
        for place in order {
            let output = &outputs[*place as usize];
            moved.push(self.output(alloc, output)?)?;
        }
        Ok(moved)
    }
}
