// An image header.
ghost use Rattle.std.specs.Prelude.{◌≡◌, ◌+◌, ◌≤◌, length};
ghost use Rattle.pdi_spec.specs.Headers.{image_header_from, image_header_size};
ghost use Rattle.headers.specs.Headers.{image_header_of};

// An image header, read at a byte offset.
#[derive(Clone, Copy)]
pub struct ImageHeader {
    pub at: usize,
    pub first_header_offset: u32,
    pub partitions: u32,
    pub checksum: u32,
}

impl ImageHeader {
    // Its size in words, and in bytes with the offset of each field that is read.
    pub const WORDS: u32 = 16;

    pub const SIZE: usize = 4 * (Self::WORDS as usize);

    pub const FIRST_HEADER_OFFSET: usize = 0x0;

    pub const PARTITIONS: usize = 0x4;

    pub const CHECKSUM: usize = 0x3C;

    // The words from the first on that the checksum sums.
    pub const CHECKSUMMED_WORDS: usize = 15;

    // The header at a byte offset.
    #[tactic(auto, unfolding(pdi_spec::specs::Headers::image_header_from))]
    pub fn read(image: &[u8], at: usize) -> ImageHeader
        requires { at + image_header_size ≤ length image.now }
        ensures { image_header_of result ≡ image_header_from image.now at }
    {
        ImageHeader {
            at,
            first_header_offset: words::word_at(image, at + Self::FIRST_HEADER_OFFSET),
            partitions: words::word_at(image, at + Self::PARTITIONS),
            checksum: words::word_at(image, at + Self::CHECKSUM),
        }
    }
}
