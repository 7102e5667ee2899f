use super::*;
use bundle::print_bundle;
use fabric::Geometry;
use netlist::read_specification;
use pch_io::{Gate, OpenGate};
use run_script::{print_transcript, read_script};
use std::alloc::Global;
use std::sync::atomic::AtomicU64;
use std::sync::atomic::Ordering::SeqCst;
use std::sync::{Arc, Wait};
use std::test::Fail;

/// A negation.
const INVERTER: &[u8] = b".inputs a\n.outputs y\n.names a y\n0 1\n.end\n";

/// One cell that negates the one input pad.
const CONFIG: [u8; 16] = [0, 1, 0, 1, 0, 0, 0, 0, 0, 0, 0x55, 0x55, 0, 2, 0, 1];

/// The same with another table, which isn't the negation.
const WRONG: [u8; 16] = [0, 1, 0, 1, 0, 0, 0, 0, 0, 0, 0x55, 0x54, 0, 2, 0, 1];

const TRACE: &[u8] = b"1 -1 0 0\n2 -2 -4 0 0\n3 2 4 0 0\n4 -3 4 0 0\n5 3 -4 0 0\n6 1 2 5 0 0\n\
7 1 -2 -5 0 0\n22 3 5 -6 0 0\n23 -3 -5 -6 0 0\n26 6 0 0\n27 2 0 26 23 6 5 3 1 0\n\
28 -2 0 26 22 7 4 2 1 0\n29 0 27 28 0\n";

const SCRIPT: &[u8] = b"fabric 1 1 1 1 1\nslots 1\nlimit 5\nworkers 2\nlane\n\
deliver 0 inv.pch\nagree 0 inv.blif\ncycle 0 1 0\ndeliver 0 inv.pch\ncycle 0 0 0\ncycle 0 1 0\n\
deliver 0 bad.pch\ncycle 0 1 0\ncycle 0 10 0\nsweep 0 0 2\nagree 0 inv.blif\ncycle 0 1 0\nevict 0\n\
lane\nsweep 0 0 1\ndeliver 0 inv.pch\nevict 0\ndeliver 0 inv.pch\nlane\n";

const PRINTED: &[u8] = b"journal 5\n1 agreed 0 1 0\n2 installed 0 3 0\n3 agreed 0 10 0\n\
4 evicted 0 12 0\n5 installed 1 1 0\nlane 0\n0 unagreed @0\n1 agreed @1\n2 vacant @1\n\
3 installed @2\n4 out 1 1 @2\n5 out 0 0 @2\n6 refused not-original 6 @2\n7 out 0 0 @2\n\
8 width 1 @2\n9 ones 1 @2\n10 agreed @3\n11 vacant @3\n12 evicted @4\nlane 1\n0 vacant @4\n\
1 installed @5\n2 full @5\n3 full @5\nlane 2\n";

/// The files `inv.pch`, `inv.blif` and `bad.pch`.
fn files(alloc: Global) -> Result<Vec<Loaded>, Fail> {
    let g = Geometry::new(1, 1, 1, 1, 1).ok_or("within the limits")?;
    let net = Arc::new(alloc, read_specification(alloc, INVERTER)?)?;
    let mut files = Vec::new(alloc);
    files.push(Loaded::Bundle(print_bundle(alloc, 1, g, &CONFIG, TRACE)?))?;
    files.push(Loaded::Spec(net))?;
    files.push(Loaded::Bundle(print_bundle(alloc, 1, g, &WRONG, TRACE)?))?;
    Ok(files)
}

#[test]
fn lanes_run_one_after_another(rt: HostRuntime) -> Result<(), Fail> {
    let alloc = rt.alloc();
    let script = read_script(alloc, SCRIPT)?;
    let files = files(alloc)?;
    assert!(rt; are_loaded(script.files.as_slice(), &files));
    let t = run_in_order(&rt, alloc, &script, &files, &OpenGate)?;
    let text = print_transcript(alloc, &t)?;
    assert_eq!(rt; text.as_slice(), PRINTED);
    Ok(())
}

/// Deliveries before an agreement, after it, and of a wrong bundle; and another lane.
const TOLD: &[u8] = b"fabric 1 1 1 1 1\nslots 1\nlimit 5\nworkers 1\nlane\ndeliver 0 inv.pch\n\
agree 0 inv.blif\ndeliver 0 inv.pch\ndeliver 0 bad.pch\nlane\ncycle 0 1 0\nevict 0\n";

/// A gate that notes the calls of two lanes, each call as two digits behind the earlier ones: 1 for
/// `pass`, 2 for `checked` or 3 for `locked`, and then the turn.
#[derive(Drop)]
struct Noting {
    first: AtomicU64,
    second: AtomicU64,
}

impl Noting {
    /// Notes a call behind the earlier ones of its lane.
    fn note(&self, call: u64, lane: u32, turn: u32) {
        let calls = if lane == 0 { &self.first } else { &self.second };
        let earlier = calls.load(SeqCst).wrapping_mul(100);
        calls.store(earlier.wrapping_add(call).wrapping_add(turn as u64), SeqCst);
    }
}

impl Gate for Noting {
    fn pass<R: Wait>(&self, _rt: &R, lane: u32, turn: u32) {
        self.note(10, lane, turn)
    }

    fn checked<R: Wait>(&self, _rt: &R, lane: u32, turn: u32) {
        self.note(20, lane, turn)
    }

    fn locked<R: Wait>(&self, _rt: &R, lane: u32, turn: u32) {
        self.note(30, lane, turn)
    }
}

#[test]
fn the_gate_is_told_what_comes(rt: HostRuntime) -> Result<(), Fail> {
    let alloc = rt.alloc();
    let script = read_script(alloc, TOLD)?;
    let files = files(alloc)?;
    assert!(rt; are_loaded(script.files.as_slice(), &files));
    let gate = Noting {
        first: AtomicU64::new(0),
        second: AtomicU64::new(0),
    };
    let _transcript = run_in_order(&rt, alloc, &script, &files, &gate)?;
    assert_eq!(rt; gate.first.load(SeqCst), 10_11_31_12_22_32_13_14);
    assert_eq!(rt; gate.second.load(SeqCst), 10_11_31_12);
    Ok(())
}
