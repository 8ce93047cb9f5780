// A partition header.
ghost use Rattle.std.specs.Prelude.{◌≡◌, ◌+◌, ◌*◌, ◌^◌, ◌≤◌, length};
ghost use Rattle.pdi_spec.specs.Headers.{header_from, header_size};
ghost use Rattle.pdi_spec.specs.Ranges.{body_of, header_range, load_range_of, span_of};
ghost use Rattle.headers.specs.Headers.{header_of};
ghost use Rattle.ranges.specs.Range.{range_of};

use crate::block::Block;
use attributes::Attributes;
use ranges::Range;

// The number of two halves.
fn joined(low: u32, high: u32) -> u64
    ensures { result ≡ low + 2 ^ 32 * high }
{
    u64::from(low) + 0x1_0000_0000 * u64::from(high)
}

// A partition header, read at a byte offset.
#[derive(Clone, Copy)]
pub struct PartitionHeader {
    pub at: usize,
    pub encrypted: u32,
    pub unencrypted: u32,
    pub total: u32,
    pub next: u32,
    pub execution: u64,
    pub load_low: u32,
    pub load_high: u32,
    pub data_offset: u32,
    pub attributes: Attributes,
    pub checksum_offset: u32,
    pub key: u32,
    pub block: Block,
    pub key_total: u32,
    pub key_actual: u32,
    pub signature_total: u32,
    pub signature_actual: u32,
    pub reserved: u32,
    pub checksum: u32,
}

impl PartitionHeader {
    // Its size, and the offset of each field that is read, in bytes.
    pub const SIZE: usize = 128;

    pub const ENCRYPTED: usize = 0x0;

    pub const UNENCRYPTED: usize = 0x4;

    pub const TOTAL: usize = 0x8;

    pub const NEXT: usize = 0xC;

    pub const EXECUTION_LOW: usize = 0x10;

    pub const EXECUTION_HIGH: usize = 0x14;

    pub const LOAD_LOW: usize = 0x18;

    pub const LOAD_HIGH: usize = 0x1C;

    pub const DATA_OFFSET: usize = 0x20;

    pub const ATTRIBUTES: usize = 0x24;

    pub const CHECKSUM_OFFSET: usize = 0x2C;

    pub const KEY: usize = 0x44;

    pub const KEY_TOTAL: usize = 0x68;

    pub const KEY_ACTUAL: usize = 0x6C;

    pub const SIGNATURE_TOTAL: usize = 0x70;

    pub const SIGNATURE_ACTUAL: usize = 0x74;

    pub const RESERVED: usize = 0x78;

    pub const CHECKSUM: usize = 0x7C;

    // The words from the first on that the checksum sums.
    pub const CHECKSUMMED_WORDS: usize = 31;

    // The header at a byte offset.
    #[tactic(auto, unfolding(pdi_spec::specs::Headers::header_from))]
    pub fn read(image: &[u8], at: usize) -> PartitionHeader
        requires { at + header_size ≤ length image.now }
        ensures { header_of result ≡ header_from image.now at }
    {
        PartitionHeader {
            at,
            encrypted: words::word_at(image, at + Self::ENCRYPTED),
            unencrypted: words::word_at(image, at + Self::UNENCRYPTED),
            total: words::word_at(image, at + Self::TOTAL),
            next: words::word_at(image, at + Self::NEXT),
            execution: joined(
                words::word_at(image, at + Self::EXECUTION_LOW),
                words::word_at(image, at + Self::EXECUTION_HIGH),
            ),
            load_low: words::word_at(image, at + Self::LOAD_LOW),
            load_high: words::word_at(image, at + Self::LOAD_HIGH),
            data_offset: words::word_at(image, at + Self::DATA_OFFSET),
            attributes: Attributes {
                word: words::word_at(image, at + Self::ATTRIBUTES),
            },
            checksum_offset: words::word_at(image, at + Self::CHECKSUM_OFFSET),
            key: words::word_at(image, at + Self::KEY),
            block: Block::read(image, at),
            key_total: words::word_at(image, at + Self::KEY_TOTAL),
            key_actual: words::word_at(image, at + Self::KEY_ACTUAL),
            signature_total: words::word_at(image, at + Self::SIGNATURE_TOTAL),
            signature_actual: words::word_at(image, at + Self::SIGNATURE_ACTUAL),
            reserved: words::word_at(image, at + Self::RESERVED),
            checksum: words::word_at(image, at + Self::CHECKSUM),
        }
    }

    // The header's own bytes.
    pub fn range(self) -> Range
        ensures { range_of result ≡ header_range (header_of self) }
    {
        Range {
            start: self.at as u64,
            size: Self::SIZE as u64,
        }
    }

    // So many words from the data offset on.
    fn stored(self, words: u32) -> Range
        ensures start { result.start ≡ 4 * self.data_offset }
        ensures size { result.size ≡ 4 * words }
    {
        Range {
            start: 4 * u64::from(self.data_offset),
            size: 4 * u64::from(words),
        }
    }

    // All stored bytes of the partition.
    pub fn span(self) -> Range
        ensures { range_of result ≡ span_of (header_of self) }
    {
        self.stored(self.total)
    }

    // Its body: the first E words of them.
    pub fn body(self) -> Range
        ensures { range_of result ≡ body_of (header_of self) }
    {
        self.stored(self.encrypted)
    }

    // The addresses that a partition with a load address fills.
    pub fn load_range(self) -> Range
        ensures { range_of result ≡ (load_range_of (header_of self)).addresses }
    {
        Range {
            start: joined(self.load_low, self.load_high),
            size: 4 * u64::from(self.unencrypted),
        }
    }
}
