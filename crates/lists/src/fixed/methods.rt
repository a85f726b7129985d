// What can be done with a list in a fixed array. No method has anything to ask of its caller.
ghost use Rattle.std.specs.Prelude.{◌≡◌, ◌≤◌, [], length, take};
ghost use Rattle.std.specs.List.{slice_get};
ghost use Rattle.stack.specs.Stacks.{Pushed};
ghost use Rattle.lists.specs.Listed.{listed};

use crate::fixed::FixedList;
use stack::stack::NoRoom;

impl<T: Copy, const N: usize> FixedList<T, N> {
    // No item, and `blank` in every place.
    pub fn new(blank: T) -> FixedList<T, N>
        ensures { listed result ≡ [] }
    {
        FixedList {
            places: [blank; N],
            len: 0,
        }
    }

    // How many items there are.
    pub fn len(&self) -> usize
        ensures count { result ≡ length (listed self.now) }
        ensures most { result ≤ N }
    {
        self.as_slice().len()
    }

    // The items, by position.
    pub fn as_slice(&self) -> &[T]
        ensures { result.now ≡ listed self.now }
    {
        &self.places[..self.len]
    }

    // The item at `i`; none where there is none.
    pub fn get(&self, i: usize) -> Option<T>
        ensures { result ≡ slice_get (listed self.now) i }
    {
        self.as_slice().get(i).copied()
    }

    // One item more; refused, with no change, where there are `N`.
    pub fn push(&mut self, x: T) -> Result<(), NoRoom>
        ensures { Pushed N x (listed self.old) result (listed self.new) }
    {
        if self.len >= N {
            return Err(NoRoom);
        }
        self.places[self.len] = x;
        self.len += 1;
        Ok(())
    }

    // Back to the first `to` items.
    pub fn cut(&mut self, to: usize)
        ensures { listed self.new ≡ take to (listed self.old) }
    {
        self.len = self.len.min(to);
    }
}
