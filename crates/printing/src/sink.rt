// What takes the bytes of a line, one after the other: one sees whether they fit, the other writes them.
ghost use Rattle.std.specs.Prelude.{◌≡◌, ◌+◌, ◌≤◌, List, ℕ, ◌++◌, length, decimal};
ghost use Rattle.printing.specs.Sinks.{room_after, AnyBytes, LeavesRoom, Fits, Writes};
ghost use Rattle.printing.specs.SinkLaws.{leaves_twice, fits_first, fits_rest, writes_twice};

use crate::digits::{digit_count, write_digits};

// What the bytes of a line are put into.
pub(crate) trait Sink {
    // the bytes may be taken
    ghost can_take: { Self → List ℕ → Type 0 };

    // what it is, the bytes that it takes, and what it is then
    ghost takes: { Self → List ℕ → Self → Type 0 };

    // Takes a text.
    fn put(&mut self, text: &[u8])
        requires { can_take self.old text.now }
        ensures { takes self.old text.now self.new };

    // Takes a number in decimal.
    fn put_number(&mut self, n: u16)
        requires { can_take self.old (decimal n) }
        ensures { takes self.old (decimal n) self.new };

    // the first of two texts may be taken where both may
    ghost first: { (a : Self) (xs ys : List ℕ) → can_take a (xs ++ ys) → can_take a xs };

    // and then the second
    ghost second: { (a b : Self) (xs ys : List ℕ) → can_take a (xs ++ ys) → takes a xs b → can_take b ys };

    // and both are one
    ghost both: { (a b c : Self) (xs ys : List ℕ) → can_take a (xs ++ ys) → takes a xs b → takes b ys c → takes a (xs ++ ys) c };
}

// How many bytes still fit; none where the bytes so far did not.
#[derive(Clone, Copy, PartialEq, Eq, Debug)]
pub(crate) struct Room {
    pub(crate) left: Option<usize>,
}

impl Room {
    // Takes so many bytes.
    fn take(&mut self, len: usize)
        ensures { self.new.left ≡ room_after self.old.left len }
    {
        self.left = self.left.and_then(|left| left.checked_sub(len));
    }
}

// A text takes its length, whether it fits or not.
impl Sink for Room {
    ghost can_take = { AnyBytes };

    ghost takes = { LeavesRoom };

    ghost first = { λ a xs ys any. tt };

    ghost second = { λ a b xs ys any one. tt };

    ghost both = { leaves_twice };

    fn put(&mut self, text: &[u8]) {
        self.take(text.len());
    }

    fn put_number(&mut self, n: u16) {
        self.take(digit_count(n));
    }
}

// A place in a print buffer.
#[derive(Drop)]
pub(crate) struct Place<'a> {
    pub(crate) buf: &'a mut [u8],
    pub(crate) at: usize,
}

// A text that fits is written there, and the place behind it comes next.
impl Sink for Place<'_> {
    ghost can_take = { Fits };

    ghost takes = { Writes };

    ghost first = { fits_first };

    ghost second = { fits_rest };

    ghost both = { writes_twice };

    fn put(&mut self, text: &[u8]) {
        let end = self.at + text.len();
        self.buf[self.at..end].copy_from_slice(text);
        self.at = end;
    }

    fn put_number(&mut self, n: u16) {
        let end = self.at + digit_count(n);
        write_digits(&mut self.buf[self.at..end], n);
        self.at = end;
    }
}
