// The blocks of the program's input, framed like records.
ghost use Rattle.std.specs.Prelude.{◌≡◌, length};
ghost use Rattle.blocks.specs.Blocks.{block_number, fits_block, AsksFor, NextBlock};

use records::cursor::split_record;

// What a block asks for.
#[derive(Clone, Copy, PartialEq, Eq, Debug)]
pub enum BlockKind {
    Open,
    Enter,
    Prove,
    Refute,
}

// A number that stands for no kind of block.
#[derive(Clone, Copy, PartialEq, Eq, Debug)]
pub struct UnknownBlock(pub u16);

// The number of a kind of block.
impl From<BlockKind> for u16 {
    ghost from_gives = { λ k n. n ≡ block_number k };

    fn from(kind: BlockKind) -> u16 {
        match kind {
            BlockKind::Open => 0,
            BlockKind::Enter => 1,
            BlockKind::Prove => 2,
            BlockKind::Refute => 3,
        }
    }
}

// The kind of block that a number stands for, if there is one.
impl TryFrom<u16> for BlockKind {
    type Error = UnknownBlock;

    ghost try_from_gives = { AsksFor };

    fn try_from(number: u16) -> Result<BlockKind, UnknownBlock> {
        match number {
            0 => Ok(BlockKind::Open),
            1 => Ok(BlockKind::Enter),
            2 => Ok(BlockKind::Prove),
            3 => Ok(BlockKind::Refute),
            _ => Err(UnknownBlock(number)),
        }
    }
}

impl BlockKind {
    // Whether a body of this size can be one of this kind: a number of principals is two bytes, a sequent's number the first two.
    pub fn takes(self, size: usize) -> bool
        ensures { result ≡ fits_block self size }
    {
        match self {
            BlockKind::Open => size == 2,
            BlockKind::Enter => true,
            BlockKind::Prove | BlockKind::Refute => size >= 2,
        }
    }
}

// A block: what it asks for, and its body.
#[derive(Clone, Copy, PartialEq, Eq, Debug)]
pub struct Block<'a> {
    pub kind: BlockKind,
    pub body: &'a [u8],
}

// What comes next in the input is no block: its frame is broken, its kind unknown or its body of a wrong size.
#[derive(Clone, Copy, PartialEq, Eq, Debug)]
pub struct NoBlock;

// The input that is still to be read. Not a `Cursor`, which counts the records of a file of at most 32,768 bytes: the input has no limit.
#[derive(Drop)]
pub struct BlockCursor<'a> {
    rest: &'a [u8],
}

impl<'a> BlockCursor<'a> {
    // A cursor before the first block of `input`.
    pub fn new(input: &'a [u8]) -> BlockCursor<'a>
        ensures { result.rest.now ≡ input.now }
    {
        BlockCursor { rest: input }
    }

    // How many bytes are still to be read.
    pub fn left(&self) -> usize
        ensures { result ≡ length self.now.rest.now }
    {
        self.rest.len()
    }

    // The next block, and none at the end; the cursor goes past it, and stays where what comes next is no block.
    pub fn next(&mut self) -> Result<Option<Block<'a>>, NoBlock>
        ensures { NextBlock self.old.rest.now result self.new.rest.now }
    {
        if self.rest.is_empty() {
            return Ok(None);
        }
        let (raw, rest) = split_record(self.rest).ok_or(NoBlock)?;
        let Ok(kind) = BlockKind::try_from(raw.kind) else {
            return Err(NoBlock);
        };
        let body = raw.body;
        if !kind.takes(body.len()) {
            return Err(NoBlock);
        }
        self.rest = rest;
        Ok(Some(Block { kind, body }))
    }
}
