// The image header table.
ghost use Rattle.std.specs.Prelude.{◌≡◌, ◌+◌, ◌≤◌, length};
ghost use Rattle.pdi_spec.specs.Headers.{header_size, kind_from, table_from};
ghost use Rattle.pdi_spec.specs.Headers.{image_header_words_of, partition_header_words_of, table_words_of};
ghost use Rattle.pdi_spec.specs.Ranges.{image_headers, table_with_optional};
ghost use Rattle.headers.specs.Headers.{table_of};
ghost use Rattle.ranges.specs.Range.{range_of};

use crate::block::Block;
use ranges::Range;

const FPDI: [u8; 4] = *b"FPDI";

const PPDI: [u8; 4] = *b"PPDI";

// The word of header sizes.
#[derive(Clone, Copy)]
pub struct HeaderSizes {
    pub word: u32,
}

// The table, read at its place. The kind is the number that the head of the rows states: 1 full, 2 partial, or 0 where it is neither.
#[derive(Clone, Copy)]
pub struct TableHeader {
    pub place: usize,
    pub version: u32,
    pub images: u32,
    pub image_header_offset: u32,
    pub partitions: u32,
    pub first_header_offset: u32,
    pub kind: u32,
    pub header_sizes: HeaderSizes,
    pub key: u32,
    pub optional_words: u32,
    pub block: Block,
    pub reserved: u32,
    pub checksum: u32,
}

// The three header sizes, in words.
impl HeaderSizes {
    // The table's, bits 7:0.
    pub fn table_words(self) -> u32
        ensures { result ≡ table_words_of self.word }
    {
        words::bits::<0, 8>(self.word)
    }

    // An image header's, bits 15:8.
    pub fn image_header_words(self) -> u32
        ensures { result ≡ image_header_words_of self.word }
    {
        words::bits::<8, 8>(self.word)
    }

    // A partition header's, bits 23:16.
    pub fn partition_header_words(self) -> u32
        ensures { result ≡ partition_header_words_of self.word }
    {
        words::bits::<16, 8>(self.word)
    }
}

// The kind by the four bytes of the kind string: 1 full, 2 partial, 0 neither.
#[tactic(auto, unfolding(pdi_spec::specs::Headers::kind_from, pdi_spec::specs::Headers::FPDI, pdi_spec::specs::Headers::PPDI))]
fn kind_of(image: &[u8], place: usize) -> u32
    requires { place + header_size ≤ length image.now }
    ensures { result ≡ kind_from image.now (place + 0x28) }
{
    let at = place + TableHeader::KIND;
    if words::spells(image, at, &FPDI) {
        1
    } else if words::spells(image, at, &PPDI) {
        2
    } else {
        0
    }
}

impl TableHeader {
    // Its size in words, and in bytes with the offset of each field that is read.
    pub const WORDS: u32 = 32;

    pub const SIZE: usize = 4 * (Self::WORDS as usize);

    pub const VERSION: usize = 0x0;

    pub const IMAGES: usize = 0x4;

    pub const IMAGE_HEADER_OFFSET: usize = 0x8;

    pub const PARTITIONS: usize = 0xC;

    pub const FIRST_HEADER_OFFSET: usize = 0x10;

    pub const KIND: usize = 0x28;

    pub const HEADER_SIZES: usize = 0x2C;

    pub const KEY: usize = 0x40;

    pub const OPTIONAL_WORDS: usize = 0x58;

    pub const RESERVED: usize = 0x78;

    pub const CHECKSUM: usize = 0x7C;

    // The words from the first on that the checksum sums.
    pub const CHECKSUMMED_WORDS: usize = 31;

    // The table at its place.
    #[tactic(auto, unfolding(pdi_spec::specs::Headers::table_from))]
    pub fn read(image: &[u8], place: usize) -> TableHeader
        requires { place + header_size ≤ length image.now }
        ensures { table_of result ≡ table_from image.now place }
    {
        TableHeader {
            place,
            version: words::word_at(image, place + Self::VERSION),
            images: words::word_at(image, place + Self::IMAGES),
            image_header_offset: words::word_at(image, place + Self::IMAGE_HEADER_OFFSET),
            partitions: words::word_at(image, place + Self::PARTITIONS),
            first_header_offset: words::word_at(image, place + Self::FIRST_HEADER_OFFSET),
            kind: kind_of(image, place),
            header_sizes: HeaderSizes {
                word: words::word_at(image, place + Self::HEADER_SIZES),
            },
            key: words::word_at(image, place + Self::KEY),
            optional_words: words::word_at(image, place + Self::OPTIONAL_WORDS),
            block: Block::read(image, place),
            reserved: words::word_at(image, place + Self::RESERVED),
            checksum: words::word_at(image, place + Self::CHECKSUM),
        }
    }

    // The table, and the optional data that follow it.
    pub fn with_optional(self) -> Range
        ensures { range_of result ≡ table_with_optional (table_of self) }
    {
        Range {
            start: self.place as u64,
            size: (Self::SIZE as u64) + 4 * u64::from(self.optional_words),
        }
    }

    // All image headers. At most 2^32 of 255 words, so that the products fit.
    pub fn image_headers(self) -> Range
        ensures { range_of result ≡ image_headers (table_of self) }
    {
        let sizes = self.header_sizes;
        Range {
            start: 4 * u64::from(self.image_header_offset),
            size: 4 * (u64::from(self.images) * u64::from(sizes.image_header_words())),
        }
    }
}
