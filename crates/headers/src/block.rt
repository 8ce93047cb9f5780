// A hash block as the table or a partition header names it.
ghost use Rattle.std.specs.Prelude.{◌≡◌, ◌+◌, ◌≤◌, length};
ghost use Rattle.pdi_spec.specs.HashBlock.{no_block};
ghost use Rattle.pdi_spec.specs.Headers.{block_from, header_size};
ghost use Rattle.pdi_spec.specs.Ranges.{block_range};
ghost use Rattle.headers.specs.Headers.{block_of};
ghost use Rattle.ranges.specs.Range.{range_of};

use ranges::Range;

// Its size in bytes, its offset in words.
#[derive(Clone, Copy)]
pub struct Block {
    pub size: u32,
    pub offset: u32,
}

impl Block {
    // The byte offset of each of its words, in a header of either kind.
    pub const LENGTH: usize = 0x60;

    pub const OFFSET: usize = 0x64;

    // The block that the header at a place names.
    #[tactic(auto, unfolding(pdi_spec::specs::Headers::block_from))]
    pub fn read(image: &[u8], place: usize) -> Block
        requires { place + header_size ≤ length image.now }
        ensures { block_of result ≡ block_from image.now place }
    {
        Block {
            size: words::word_at(image, place + Self::LENGTH),
            offset: words::word_at(image, place + Self::OFFSET),
        }
    }

    // Both words are 0: there is no block.
    pub fn is_absent(self) -> bool
        ensures { result ≡ no_block (block_of self) }
    {
        (self.size == 0) & (self.offset == 0)
    }

    // Its bytes.
    pub fn range(self) -> Range
        ensures { range_of result ≡ block_range (block_of self) }
    {
        Range {
            start: 4 * u64::from(self.offset),
            size: u64::from(self.size),
        }
    }
}
