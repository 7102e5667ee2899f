//! The nodes that the outputs of a net need. All nodes are passed in the reverse of an order of
//! evaluation, so when a node is passed, all that may have it as a fan-in have been.

ghost use Rattle.std.specs.Prelude.{◌≡◌, ℕ, ◌+◌, ◌<◌, ◌↔◌, ◌⊎◌, length, All, IfOk};
ghost use Rattle.clause_defs.specs.Clauses.{Has};
ghost use Rattle.map_defs.specs.Needed.{IsNeeded};
ghost use Rattle.lut_map.specs.Marks.{IsMarked, is_marked};

use netlist::Net;
use pch_base::NoMemory;
use std::alloc::Global;

/// Marks the node of a signal, where it is no input.
#[tactic(auto, using(crate::proofs::MarkLemmas::node_marked, crate::proofs::MarkLemmas::input_marks))]
fn mark_node(marks: &mut Vec<bool>, inputs: u32, signal: u32)
    requires { signal < inputs + length marks.old.items }
    ensures count { length marks.new.items ≡ length marks.old.items }
    ensures marks { (v : ℕ) → IsMarked marks.new.items v
        ↔ (IsMarked marks.old.items v ⊎ (signal ≡ inputs + v)) }
{
    if signal >= inputs {
        marks[(signal - inputs) as usize] = true;
    }
}

/// Marks the nodes among these signals.
fn mark_nodes(marks: &mut Vec<bool>, inputs: u32, signals: &[u32])
    requires { All (λ s. s < inputs + length marks.old.items) signals.now }
    ensures count { length marks.new.items ≡ length marks.old.items }
    ensures marks { (v : ℕ) → IsMarked marks.new.items v
        ↔ (IsMarked marks.old.items v ⊎ Has signals.now (inputs + v)) }
{
    for signal in signals {
        mark_node(marks, inputs, *signal);
    }
}

/// For each node whether it is needed.
pub(crate) fn needed_nodes(alloc: Global, net: &Net) -> Result<Vec<bool>, NoMemory>
    ensures count { IfOk result (λ marks. length marks.items ≡ length net.now.nodes) }
    ensures needed { IfOk result (λ marks. IsNeeded net.now (is_marked marks.items)) }
{
    let inputs = net.inputs();
    let mut marks = vec![in alloc; false; net.nodes() as usize]?;
    for o in 0..net.outputs() {
        mark_node(&mut marks, inputs, net.output_signal(o));
    }
    let order = net.order();
    for j in (0..order.len()).rev() {
        let v = order[j];
        if marks[v as usize] {
            mark_nodes(&mut marks, inputs, net.fan_ins(v));
        }
    }
    Ok(marks)
}
