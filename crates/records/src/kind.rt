// A kind of record: its number, the size of its body, and what a body of that size holds.
ghost use Rattle.std.specs.Prelude.{◌≡◌, ℕ, List, length};

pub trait RecordKind {
    type Content;

    // the kind's number, and the size of its body
    const KIND: u16;

    ghost KIND: { ℕ };

    const SIZE: usize;

    ghost SIZE: { ℕ };

    // what a body of that size holds
    ghost content: { List ℕ → Self.Content };

    fn read(body: &[u8]) -> Self::Content
        requires { length body.now ≡ SIZE }
        ensures { result ≡ content body.now };
}
