// The stack and what is true of every stack; its methods stand in a module of their own.
ghost use Rattle.std.specs.Prelude.{◌≤◌, length, drop};
ghost use Rattle.stack.specs.Places.{Blanked};

pub mod methods;

// Lent places and not a `Vec`, since nothing here takes memory of its own.
// A stack over lent places: the first `len` are in use, at most `limit` of them, and every other place is blank.
#[derive(Drop)]
pub struct Stack<'a, T> {
    places: &'a mut [T],
    len: usize,
    limit: usize,
    blank: T,
    ghost within: { len ≤ length places.now },
    ghost few: { len ≤ limit },
    ghost free: { Blanked blank (drop len places.now) },
}

// There is no room for one item more.
#[derive(Clone, Copy, PartialEq, Eq, Debug)]
pub struct NoRoom;
