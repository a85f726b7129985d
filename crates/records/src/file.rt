// A file that was handed in: its type says that it has at most 32,768 bytes.
ghost use Rattle.std.specs.Prelude.{◌≤◌, length};

pub mod methods;

// How many bytes a file may have.
pub const MAX_FILE: usize = 32768;

#[derive(Clone, Copy)]
pub struct File<'a> {
    bytes: &'a [u8],
    ghost short: { length bytes.now ≤ 32768 },
}
