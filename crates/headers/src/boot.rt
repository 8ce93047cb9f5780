// The boot header, from image byte 0 on.
ghost use Rattle.std.specs.Prelude.{◌≡◌, ◌≤◌, length};
ghost use Rattle.pdi_spec.specs.Headers.{boot_from, boot_size};
ghost use Rattle.pdi_spec.specs.Ranges.{boot_range};
ghost use Rattle.headers.specs.Headers.{boot_of};
ghost use Rattle.ranges.specs.Range.{range_of};

use ranges::Range;

const XNLX: [u8; 4] = *b"XNLX";

// Its fields that rule 8 names.
#[derive(Clone, Copy)]
pub struct BootHeader {
    pub width_detection: u32,
    pub identified: bool,
    pub key: u32,
    pub source_offset: u32,
    pub cdo_length: u32,
    pub cdo_total: u32,
    pub plm_length: u32,
    pub plm_total: u32,
    pub checksum: u32,
}

impl BootHeader {
    // Its size, and the offset of each field that is read, in bytes.
    pub const SIZE: usize = 4416;

    pub const WIDTH_DETECTION: usize = 0x10;

    pub const IDENTIFICATION: usize = 0x14;

    pub const KEY: usize = 0x18;

    pub const SOURCE_OFFSET: usize = 0x1C;

    pub const CDO_LENGTH: usize = 0x24;

    pub const CDO_TOTAL: usize = 0x28;

    pub const PLM_LENGTH: usize = 0x2C;

    pub const PLM_TOTAL: usize = 0x30;

    pub const CHECKSUM: usize = 0x113C;

    // The words that the checksum sums: where they start, and how many they are.
    pub const CHECKSUMMED: usize = 0x10;

    pub const CHECKSUMMED_WORDS: usize = 1099;

    // Its bytes.
    pub fn range() -> Range
        ensures { range_of result ≡ boot_range }
    {
        Range {
            start: 0,
            size: Self::SIZE as u64,
        }
    }

    // The boot header of an image that has room for one.
    #[tactic(auto, unfolding(pdi_spec::specs::Headers::boot_from, pdi_spec::specs::Headers::XNLX))]
    pub fn read(image: &[u8]) -> BootHeader
        requires { boot_size ≤ length image.now }
        ensures { boot_of result ≡ boot_from image.now }
    {
        BootHeader {
            width_detection: words::word_at(image, Self::WIDTH_DETECTION),
            identified: words::spells(image, Self::IDENTIFICATION, &XNLX),
            key: words::word_at(image, Self::KEY),
            source_offset: words::word_at(image, Self::SOURCE_OFFSET),
            cdo_length: words::word_at(image, Self::CDO_LENGTH),
            cdo_total: words::word_at(image, Self::CDO_TOTAL),
            plm_length: words::word_at(image, Self::PLM_LENGTH),
            plm_total: words::word_at(image, Self::PLM_TOTAL),
            checksum: words::word_at(image, Self::CHECKSUM),
        }
    }
}
