ghost use Rattle.std.specs.Prelude.{◌≡◌};

/// The name of a block. It stays when the block is moved, and a name that was freed may be given
/// again.
#[derive(Clone, Copy, Debug, PartialEq, Eq)]
pub struct Block {
    name: u32,
}

impl Block {
    /// The block with this name.
    pub fn from_name(name: u32) -> Block
        ensures { result.name ≡ name }
    {
        Block { name }
    }

    /// The block's name, a number below the number of blocks that fit.
    pub fn name(self) -> u32
        ensures { result ≡ self.name }
    {
        self.name
    }
}

/// There is no room for one more block: the words that it has are too many beside the live ones, or
/// as many blocks are live as fit.
#[derive(Clone, Copy, Debug, PartialEq, Eq)]
pub struct Full {
    /// How many words the live blocks have together.
    pub live_words: u32,
    /// How many blocks are live.
    pub live_blocks: u32,
}
