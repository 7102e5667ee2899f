ghost use Rattle.std.specs.Prelude.{◌≤◌, length};
ghost use Rattle.blif_defs.specs.declared.mark.TheConstants.{MAX_SIGNALS};
ghost use Rattle.netlist.specs.Sortings.{HasFanInsWithin, HasShortNodes};
ghost use Rattle.text_defs.specs.Memory.{OrMemory};
ghost use Rattle.net_defs.specs.declared.faults.NetError.TheVariants.{NoMemory};
ghost use Rattle.netlist.specs.Orders.{OrderOf};

use crate::network::Network;
use net_defs::NetError;
use std::alloc::{AllocError, Global};

/// How far the search has come with a node.
#[derive(Clone, Copy, Debug)]
pub(crate) enum State {
    /// It wasn't met yet.
    New,
    /// It is on the stack: it was met, and not all of its fan-ins are known to be done.
    Open,
    /// It is in the order, and so are all nodes among its fan-ins.
    Done,
}

/// A search through the fan-ins, which puts each node into the order after those that it needs.
#[derive(Drop)]
pub(crate) struct Sorting {
    /// How far it has come with each node.
    states: Vec<State>,
    /// For each node, how many of its pins are still to be looked at, from the last one on.
    left: Vec<u32>,
    /// The open nodes: each needs the next one.
    stack: Vec<u32>,
    /// The nodes that are done, each after those that it needs.
    order: Vec<u32>,
}

/// An order of the nodes in which each comes after those among its fan-ins, or `Cycle` with the first
/// node that isn't settled.
pub(crate) fn order_of(alloc: Global, network: &Network) -> Result<Vec<u32>, NetError>
    requires fan_ins { HasFanInsWithin network.now }
    requires short { HasShortNodes network.now }
    requires within { length network.now.nodes ≤ MAX_SIGNALS }
    ensures { OrMemory NoMemory (OrderOf network.now) result }
{
    let mut sorting = Sorting::new(alloc, network)?;
    for v in 0..network.nodes().len() as u32 {
        if !sorting.settle(network, v)? {
            return Err(NetError::Cycle { node: v });
        }
    }
    Ok(sorting.into_order())
}

impl Sorting {
    ghost use Rattle.std.specs.Prelude.{◌≡◌, ℕ, ◌+◌, ◌-◌, ◌<◌, ◌≤◌, true, false, List, [], ◌∷◌, ◌++◌, length, take, slice_index, slice_set, OnOk, IfOk, IsTrue};
    ghost use Rattle.net_defs.specs.Networks.{node_at, signals};
    ghost use Rattle.net_defs.specs.Settling.{Settled};
    ghost use Rattle.netlist.specs.Sortings.{state_at, StaysDone, HasFanInsWithin, HasShortNodes};
    ghost use Rattle.netlist.specs.Searches.{IsSound, work_of};
    ghost use Rattle.netlist.specs.declared.order.State.TheVariants.{New, Open, Done};

    /// No node was met.
    fn new(alloc: Global, network: &Network) -> Result<Sorting, AllocError>
        requires short { HasShortNodes network.now }
        ensures sound { IfOk result (IsSound network.now) }
        ensures empty { IfOk result (λ s. s.stack.items ≡ []) }
    {
        let count = network.nodes().len();
        Ok(Sorting {
            states: vec![in alloc; State::New; count]?,
            left: network.pin_counts(alloc)?,
            stack: Vec::with_capacity(alloc, count)?,
            order: Vec::with_capacity(alloc, count)?,
        })
    }

    /// The order that was found.
    fn into_order(self) -> Vec<u32>
        ensures { result.items ≡ self.order.items }
    {
        self.order
    }

    /// Puts the node and all that it needs into the order. Answers false where it isn't settled.
    fn settle(&mut self, network: &Network, root: u32) -> Result<bool, AllocError>
        requires sound { IsSound network.now self.old }
        requires fan_ins { HasFanInsWithin network.now }
        requires empty { self.old.stack.items ≡ [] }
        requires within { root < length network.now.nodes }
        ensures sound { IfOk result (λ b. b ≡ true → IsSound network.now self.new) }
        ensures empty { IfOk result (λ b. b ≡ true → self.new.stack.items ≡ []) }
        ensures done { IfOk result (λ b. b ≡ true → state_at self.new.states.items root ≡ Done) }
        ensures stays { IfOk result (λ b. b ≡ true
            → StaysDone self.old.states.items self.new.states.items) }
        ensures unsettled { IfOk result (λ b. b ≡ false → (k : ℕ) → Settled network.now k root
            → ⊥) }
    {
        if !self.is_new(root) {
            return Ok(true);
        }
        self.open(root)?;
        while let Some(&v) = self.stack.last() {
            if !self.advance(network, v)? {
                return Ok(false);
            }
        }
        Ok(true)
    }

    /// Whether the node wasn't met yet.
    fn is_new(&self, v: u32) -> bool
        requires { v < length self.now.states.items }
        ensures new { result ≡ true → state_at self.now.states.items v ≡ New }
        ensures met { result ≡ false → state_at self.now.states.items v ≡ New → ⊥ }
    {
        matches!(self.states[v as usize], State::New)
    }

    /// Puts a node on the stack.
    fn open(&mut self, v: u32) -> Result<(), AllocError>
        requires { v < length self.old.states.items }
        ensures states { OnOk result
            (self.new.states.items ≡ slice_set self.old.states.items v Open) }
        ensures left { OnOk result (self.new.left.items ≡ self.old.left.items) }
        ensures stack { OnOk result (self.new.stack.items ≡ self.old.stack.items ++ v ∷ []) }
        ensures order { OnOk result (self.new.order.items ≡ self.old.order.items) }
    {
        self.stack.push(v)?;
        self.states[v as usize] = State::Open;
        Ok(())
    }

    /// Takes the last node off the stack and puts it into the order.
    fn close(&mut self, v: u32) -> Result<(), AllocError>
        requires within { v < length self.old.states.items }
        requires stacked { 0 < length self.old.stack.items }
        ensures states { OnOk result
            (self.new.states.items ≡ slice_set self.old.states.items v Done) }
        ensures left { OnOk result (self.new.left.items ≡ self.old.left.items) }
        ensures stack { OnOk result (self.new.stack.items ≡ take
            (length self.old.stack.items - 1) self.old.stack.items) }
        ensures order { OnOk result (self.new.order.items ≡ self.old.order.items ++ v ∷ []) }
    {
        self.order.push(v)?;
        self.stack.pop();
        self.states[v as usize] = State::Done;
        Ok(())
    }

    /// Looks at one more pin of the last open node, or closes it. Answers false where its pin leads
    /// back to the stack.
    fn advance(&mut self, network: &Network, v: u32) -> Result<bool, AllocError>
        requires sound { IsSound network.now self.old }
        requires fan_ins { HasFanInsWithin network.now }
        requires stacked { 0 < length self.old.stack.items }
        requires last { slice_index self.old.stack.items (length self.old.stack.items - 1) ≡ v }
        ensures sound { OnOk result (IsSound network.now self.new) }
        ensures stays { OnOk result (StaysDone self.old.states.items self.new.states.items) }
        ensures bottom { OnOk result (0 < length self.new.stack.items
            → slice_index self.new.stack.items 0 ≡ slice_index self.old.stack.items 0) }
        ensures met { OnOk result ((u : ℕ) → state_at self.new.states.items u ≡ New
            → state_at self.old.states.items u ≡ New) }
        ensures less { IfOk result (λ b. b ≡ true → work_of self.new < work_of self.old) }
        ensures stack { IfOk result (λ b. b ≡ false → self.new.stack.items ≡ self.old.stack.items) }
        ensures cycle { IfOk result (λ b. b ≡ false → (k u : ℕ)
            → state_at self.new.states.items u ≡ Open → Settled network.now k u → ⊥) }
    {
        let pins = self.left[v as usize];
        if pins == 0 {
            self.close(v)?;
            return Ok(true);
        }
        let signal = network.fan_in(v, pins - 1) as usize;
        let inputs = network.inputs().len();
        if signal < inputs {
            self.left[v as usize] = pins - 1;
            return Ok(true);
        }
        let node = signal - inputs;
        match self.states[node] {
            State::New => {
                self.open(node as u32)?;
                Ok(true)
            }
            State::Open => Ok(false),
            State::Done => {
                self.left[v as usize] = pins - 1;
                Ok(true)
            }
        }
    }
}
