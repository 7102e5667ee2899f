ghost use Rattle.std.specs.Prelude.{◌≡◌, ◌≢◌, ◌↔◌, ◌+◌, ◌^◌, ◌<◌, ◌≤◌, ◌++◌, length, vec_capacity, None, Some, IsTrue};
ghost use Rattle.pch_region.specs.Places.{place_of, block_in, own_place, listed, EachEndsBy};

use pch_base::Lit;

/// Where a live block lies: its words in the run, and its entry in the order of the blocks. A block
/// without words has no entry.
#[derive(Clone, Copy, Debug)]
pub struct Place {
    pub start: u32,
    pub len: u32,
    pub at: u32,
}

/// Whether a block with this name is live.
pub fn is_taken(slots: &[Option<Place>], name: u32) -> bool
    ensures { IsTrue result ↔ (place_of slots.now name ≢ None) }
{
    match slots.get(name as usize) {
        Some(Some(_)) => true,
        _ => false,
    }
}

/// The literals of the block with this name.
pub fn part<'a>(run: &'a [Lit], slots: &[Option<Place>], name: u32) -> &'a [Lit]
    requires live { place_of slots.now name ≢ None }
    requires ends { EachEndsBy (length run.now) slots.now }
    ensures { block_in run.now (place_of slots.now name) ≡ Some result.now }
{
    match slots.get(name as usize) {
        Some(Some(p)) if p.len > 0 => {
            let (_, rest) = run.split_at(p.start as usize);
            let (list, _) = rest.split_at(p.len as usize);
            list
        }
        _ => &[],
    }
}

/// The place of the block with this name, if entry `at` of the order is its own.
pub fn place_at(slots: &[Option<Place>], name: u32, at: u32) -> Option<Place>
    ensures { result ≡ own_place at (place_of slots.now name) }
{
    match slots.get(name as usize) {
        Some(Some(p)) if p.at == at && p.len > 0 => Some(*p),
        _ => None,
    }
}

/// Writes the literals behind the others, and says where they lie.
pub fn append(run: &mut Vec<Lit>, order: &mut Vec<u32>, name: u32, lits: &[Lit]) -> Place
    requires room { length run.old.items + length lits.now ≤ vec_capacity run.old }
    requires few { length run.old.items + length lits.now < 2 ^ 32 }
    requires few_names { length order.old.items ≤ length run.old.items }
    requires name_room { length run.old.items + length lits.now ≤ vec_capacity order.old }
    ensures run { run.new.items ≡ run.old.items ++ lits.now }
    ensures run_room { vec_capacity run.old ≤ vec_capacity run.new }
    ensures order { order.new.items ≡ listed order.old.items name (length lits.now) }
    ensures order_room { vec_capacity order.new ≡ vec_capacity order.old }
    ensures start { result.start ≡ length run.old.items }
    ensures len { result.len ≡ length lits.now }
    ensures at { result.at ≡ length order.old.items }
{
    let place = Place {
        start: run.len() as u32,
        len: lits.len() as u32,
        at: order.len() as u32,
    };
    let _ = run.extend_from_slice(lits);
    if !lits.is_empty() {
        order.push_reserved(name);
    }
    place
}
