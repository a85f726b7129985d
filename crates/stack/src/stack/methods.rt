// What can be done with a stack. No method has anything to ask of its caller.
ghost use Rattle.std.specs.Prelude.{◌≡◌, ◌≤◌, [], length, take, nat_lt};
ghost use Rattle.std.specs.List.{slice_get};
ghost use Rattle.stack.specs.Places.{Blanked, Cleared};
ghost use Rattle.stack.specs.Stacks.{items, room, latest, before_latest, Pushed, Same, Made};

use crate::blank::Blank;
use crate::stack::{NoRoom, Stack};

// Writes `blank` into every place. The library's `fill` clones, and of a copied type it isn't known that its clone can't fail.
fn clear<T: Copy>(places: &mut [T], blank: T)
    ensures { Cleared blank places.old places.new }
{
    for x in places.iter_mut() {
        *x = blank;
    }
}

impl<'a, T: Blank> Stack<'a, T> {
    // The empty stack over `places`, all of which become blank; it has room for `limit` items at most.
    pub fn over(places: &'a mut [T], limit: usize) -> Stack<'a, T>
        ensures items { items result ≡ [] }
        ensures made { Made places.entry limit T.empty result }
    {
        let blank = T::blank();
        clear(places, blank);
        Stack {
            places,
            len: 0,
            limit,
            blank,
        }
    }
}

impl<'a, T: Copy> Stack<'a, T> {
    // The places in use.
    fn used(&self) -> &[T]
        ensures { result.now ≡ items self.now }
    {
        &self.places[..self.len]
    }

    // How many items there are.
    pub fn len(&self) -> usize
        ensures answer { result ≡ length (items self.now) }
        ensures bound { result ≤ room self.now }
    {
        self.used().len()
    }

    // How many items there is room for: the limit, or the places that were lent where they are fewer.
    pub fn room(&self) -> usize
        ensures { result ≡ room self.now }
    {
        self.limit.min(self.places.len())
    }

    // Whether one item more fits.
    fn has_room(&self) -> bool
        ensures { result ≡ nat_lt (length (items self.now)) (room self.now) }
    {
        self.len() < self.room()
    }

    // One item more; refused, with no change, where there is no room.
    pub fn push(&mut self, x: T) -> Result<(), NoRoom>
        ensures pushed { Pushed (room self.old) x (items self.old) result (items self.new) }
        ensures same { Same self.old self.new }
    {
        if !self.has_room() {
            return Err(NoRoom);
        }
        self.places[self.len] = x;
        self.len += 1;
        Ok(())
    }

    // The item at `i`, the oldest at 0; none where there is none.
    pub fn get(&self, i: usize) -> Option<T>
        ensures { result ≡ slice_get (items self.now) i }
    {
        self.used().get(i).copied()
    }

    // The latest item, which stays; none where there is none.
    pub fn top(&self) -> Option<T>
        ensures { result ≡ latest (items self.now) }
    {
        self.used().last().copied()
    }

    // The latest item, taken off, and its place blank; none where there is none.
    pub fn pop(&mut self) -> Option<T>
        ensures answer { result ≡ latest (items self.old) }
        ensures items { items self.new ≡ before_latest (items self.old) }
        ensures same { Same self.old self.new }
    {
        if self.len == 0 {
            return None;
        }
        let at = self.len - 1;
        let x = self.places[at];
        self.places[at] = self.blank;
        self.len = at;
        Some(x)
    }

    // Only the first `to` items stay, and the others' places become blank.
    pub fn cut(&mut self, to: usize)
        ensures items { items self.new ≡ take to (items self.old) }
        ensures same { Same self.old self.new }
    {
        if to < self.len {
            clear(&mut self.places[to..self.len], self.blank);
            self.len = to;
        }
    }

    // No item stays, and every lent place is blank, also beyond the limit.
    pub fn blank_all(&mut self)
        ensures items { items self.new ≡ [] }
        ensures blank { Blanked self.old.blank self.new.places.now }
        ensures same { Same self.old self.new }
    {
        self.cut(0);
    }
}
