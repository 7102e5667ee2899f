//! Values that are written and read by their places: an evaluation does nothing else.

ghost use Rattle.std.specs.Prelude.{◌≡◌, ◌<◌, length, slice_get, slice_set, Some, IfOk};

use std::alloc::{AllocError, Global};
use std::marker::Model;

/// Values by their places. Contracts see the list of these.
#[derive(Drop)]
pub(crate) struct Words<W> {
    words: Vec<W>,
}

impl<W> Model for Words<W> {
    ghost use Rattle.std.specs.Prelude.{List};

    ghost Value = { List W };

    ghost view = { λ a. a.words.items };
}

impl<W: Copy> Words<W> {
    /// So many times this value.
    pub(crate) fn new(alloc: Global, value: W, count: usize) -> Result<Words<W>, AllocError>
        ensures { IfOk result (λ a. length a ≡ count) }
    {
        Ok(Words {
            words: vec![in alloc; value; count]?,
        })
    }

    /// The value at a place.
    #[inline(always)]
    pub(crate) fn get(&self, place: usize) -> W
        requires { place < length self.now }
        ensures { slice_get self.now place ≡ Some result }
    {
        self.words[place]
    }

    /// Makes `value` the value at a place.
    #[inline(always)]
    pub(crate) fn set(&mut self, place: usize, value: W)
        requires { place < length self.old }
        ensures { self.new ≡ slice_set self.old place value }
    {
        self.words[place] = value;
    }
}
