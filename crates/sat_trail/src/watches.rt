//! The watches of all clauses, and the lists in which they stand.

ghost use Rattle.std.specs.Prelude.{◌≡◌, ℕ, ◌+◌, ◌*◌, ◌^◌, ◌<◌, ◌≤◌, [], length, replicate, IfOk};
ghost use Rattle.clause_defs.specs.Literals.{code};
ghost use Rattle.link_lists.specs.Linked.{list_at};
ghost use Rattle.sat_trail.specs.Watching.{lit_at};
ghost use Rattle.sat_trail.specs.Releases.{IsWithout, AreReleased};

use clause_defs::MAX_VARIABLE;
use link_lists::Links;
use pch_base::{Lit, NoMemory};
use std::alloc::Global;

/// The watched literals of the clauses, and for each code of a literal the list of its watches. List 0
/// has those that are being visited, and list 1 the loose clauses by their even watches.
#[derive(Debug, Drop)]
pub struct Watches {
    pub watch: Vec<Lit>,
    pub links: Links,
}

impl Watches {
    /// Room for so many watches of clauses over so many variables, none of them in a list.
    pub fn new(alloc: Global, variables: u32, watches: u32) -> Result<Watches, NoMemory>
        requires few_variables { variables ≤ MAX_VARIABLE }
        ensures watch { IfOk result (λ w. length w.watch.items ≡ watches) }
        ensures size { IfOk result (λ w. w.links.size ≡ watches) }
        ensures lists { IfOk result (λ w. w.links.lists ≡ replicate (2 * variables + 4) []) }
    {
        let watch = vec![in alloc; Lit::new(1); watches as usize]?;
        let links = Links::new(alloc, watches, 2 * variables as usize + 4)?;
        Ok(Watches { watch, links })
    }

    /// Takes the watches of the clause at this place out of all lists.
    pub fn release(&mut self, place: u32)
        requires within { 2 * place + 1 < length self.old.watch.items }
        requires few { length self.old.watch.items < 2 ^ 32 }
        requires size { self.old.links.size ≡ length self.old.watch.items }
        requires two_lists { 2 ≤ length self.old.links.lists }
        requires left { list_at self.old.links.lists 0 ≡ [] }
        ensures watch { self.new.watch ≡ self.old.watch }
        ensures size { self.new.links.size ≡ self.old.links.size }
        ensures lists { AreReleased self.old.links.lists self.old.watch.items place self.new.links.lists }
    {
        let first = 2 * place;
        let list = self.watch[first as usize].code();
        let other_list = self.watch[first as usize + 1].code();
        self.remove(1, first);
        self.remove(list, first);
        self.remove(other_list, first + 1);
    }

    // Takes a watch out of a list, if there is such a list and the watch stands there.
    fn remove(&mut self, list: u32, w: u32)
        requires not_0 { 1 ≤ list }
        requires left { list_at self.old.links.lists 0 ≡ [] }
        ensures watch { self.new.watch ≡ self.old.watch }
        ensures size { self.new.links.size ≡ self.old.links.size }
        ensures lists { IsWithout self.old.links.lists list w self.new.links.lists }
    {
        if list as usize >= self.links.lists() {
            return;
        }
        self.links.turn(list, 0);
        while let Some(v) = self.links.pop(0) {
            if v == w {
                continue;
            }
            self.links.push(list, v);
        }
    }
}
