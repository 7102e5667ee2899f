ghost use Rattle.std.specs.Prelude.{◌≡◌, ◌<◌, [], Some, false, IfOk};
ghost use Rattle.fabric_defs.specs.Geometries.{cell_count};
ghost use Rattle.live_table.specs.Values.{shape_of};

use super::*;
use fabric::Geometry;
use pch_base::{Bits, NoMemory};
use slot_core::{Cycle, Entry, Table};
use std::alloc::Global;
use std::sync::Wait;
use std::test::Fail;

/// A publisher without entries, of the smallest fabric and one slot, with room for one entry and one
/// reader.
fn opened<R: Wait>(rt: &R, alloc: Global) -> Result<Publisher, Fail>
    ensures slots { IfOk result (λ p. p.table.slots ≡ 1) }
    ensures room { IfOk result (λ p. p.table.limit ≡ 1) }
    ensures cells { IfOk result (λ p. 0 < cell_count p.table.geometry) }
    ensures empty { IfOk result (λ p. p.table.journal ≡ []) }
    ensures sound { IfOk result (λ p. p.broken ≡ false) }
{
    let g = Geometry::new(1, 1, 1, 1, 1).ok_or("within the limits")?;
    Ok(Publisher::open(rt, alloc, g, 1, 1, 1)?)
}

/// The one evaluator of the publisher.
fn seated<R: Wait>(rt: &R, alloc: Global, publisher: &mut Publisher) -> Result<Evaluator, NoMemory>
    requires { publisher.old.table.journal ≡ [] }
    ensures same { publisher.new ≡ publisher.old }
    ensures book { IfOk result (λ e. e.book ≡ Some publisher.old.book) }
    ensures shape { IfOk result (λ e. e.shape ≡ shape_of publisher.old.table) }
{
    let mut evaluators = publisher.evaluators(rt, alloc, 1)?;
    match evaluators.pop() {
        Some(evaluator) => Ok(evaluator),
        None => Err(NoMemory),
    }
}

/// An eviction, which is the first entry.
fn evict<R: Wait>(rt: &R, publisher: &mut Publisher) -> Result<Receipt, NoMemory>
    requires empty { publisher.old.table.journal ≡ [] }
    requires slots { publisher.old.table.slots ≡ 1 }
    requires room { publisher.old.table.limit ≡ 1 }
    requires sound { publisher.old.broken ≡ false }
    ensures { IfOk result (λ r. r.front.book ≡ publisher.old.book) }
{
    publisher.publish(
        rt,
        Entry::Evicted {
            lane: 0,
            turn: 7,
            slot: 0,
        },
    )
}

/// The one evaluator, which has learned the first entry.
fn learns<R: Wait>(rt: &R, alloc: Global, publisher: &mut Publisher) -> Result<Evaluator, Fail>
    requires empty { publisher.old.table.journal ≡ [] }
    requires slots { publisher.old.table.slots ≡ 1 }
    requires room { publisher.old.table.limit ≡ 1 }
    requires sound { publisher.old.broken ≡ false }
    ensures { IfOk result (λ e. e.shape ≡ shape_of publisher.old.table) }
{
    let mut evaluator = seated(rt, alloc, publisher)?;
    let receipt = evict(rt, publisher)?;
    evaluator.learn(&receipt.front)?;
    Ok(evaluator)
}

/// What the one evaluator answers before and after the first entry.
fn asks<R: Wait>(rt: &R, alloc: Global, publisher: &mut Publisher) -> Result<(Cycle, Since), Fail>
    requires empty { publisher.old.table.journal ≡ [] }
    requires slots { publisher.old.table.slots ≡ 1 }
    requires room { publisher.old.table.limit ≡ 1 }
    requires cells { 0 < cell_count publisher.old.table.geometry }
    requires sound { publisher.old.broken ≡ false }
{
    let mut evaluator = seated(rt, alloc, publisher)?;
    let before = evaluator.cycle(0, Bits::new(1, 1), 0)?;
    evict(rt, publisher)?;
    let after = evaluator.cycle_since(0, Bits::new(1, 1), 0)?;
    Ok((before, after))
}

#[test]
fn an_evaluator_learns_an_entry(rt: HostRuntime) -> Result<(), Fail> {
    let mut publisher = opened(&rt, rt.alloc())?;
    let learned = learns(&rt, rt.alloc(), &mut publisher);
    publisher.close(&rt);
    let mut evaluator = learned?;
    assert_eq!(rt; evaluator.seen(), 1);
    assert!(rt; matches!(evaluator.ticket(0), Err(ReadEnd::Gone)));
    assert_eq!(rt; evaluator.seen(), 1);
    Ok(())
}

#[test]
fn an_entry_is_seen(rt: HostRuntime) -> Result<(), Fail> {
    let mut publisher = opened(&rt, rt.alloc())?;
    let asked = asks(&rt, rt.alloc(), &mut publisher);
    publisher.close(&rt);
    let (before, after) = asked?;
    assert!(rt; matches!(before, Cycle::Vacant { at: 0 }));
    assert!(rt; matches!(after.cycle, Cycle::Vacant { at: 1 }) && after.net.is_none());
    Ok(())
}

#[test]
fn a_still_place_is_swept(rt: HostRuntime) -> Result<(), Fail> {
    let g = Geometry::new(1, 1, 1, 1, 1).ok_or("within the limits")?;
    let place = StillPlace::new(Table::new(rt.alloc(), g, 1, 1)?);
    let mut evaluator = EvaluatorOver::new(rt.alloc(), place, g)?;
    assert!(rt; matches!(evaluator.sweep(0, 0, 2), Ok(Sweep::Vacant { at: 0 })));
    Ok(())
}
