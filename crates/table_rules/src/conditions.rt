// What rules 3 to 9 ask of the table and of the boot header. Tests are joined by `|` and `&`, which run both sides: with no branch, one
// fact is left to prove of a function, that its answer is the definition's.
ghost use Rattle.std.specs.Prelude.{◌+◌, ◌≤◌, ◌&&◌, not, ◌≡◌, eqb, length};
ghost use Rattle.pdi_spec.specs.Answers.{asked};
ghost use Rattle.pdi_spec.specs.Headers.{boot_from, boot_size, header_size};
ghost use Rattle.pdi_spec.specs.Rules.{boot_header_bad, image_headers_outside, kind_unknown, not_from};
ghost use Rattle.pdi_spec.specs.Rules.{table_fields_bad, table_key_unknown, table_outside};
ghost use Rattle.pdi_spec.specs.Words.{checksum};
ghost use Rattle.headers.specs.Headers.{boot_of, table_of};

use headers::{BootHeader, ImageHeader, MOST_IMAGES, MOST_PARTITIONS, TableHeader};
use ranges::Range;

// Rule 3.
#[tactic(auto, unfolding(pdi_spec::specs::Rules::table_outside))]
pub(crate) fn table_outside(image: &[u8], place: usize) -> bool
    ensures { result ≡ table_outside (asked image.now place) }
{
    let table = Range {
        start: place as u64,
        size: TableHeader::SIZE as u64,
    };
    (place % 4 != 0) | ranges::past(image.len() as u64, table)
}

// Rule 4.
pub(crate) fn table_checksum_wrong(image: &[u8], t: TableHeader) -> bool
    requires { t.place + header_size ≤ length image.now }
    ensures { result ≡ not (eqb t.checksum (checksum image.now t.place 31)) }
{
    t.checksum != words::checksum(image, t.place, TableHeader::CHECKSUMMED_WORDS)
}

// Rule 5.
#[tactic(auto, unfolding(pdi_spec::specs::Rules::kind_unknown))]
pub(crate) fn kind_unknown(t: TableHeader) -> bool
    ensures { result ≡ kind_unknown (table_of t) }
{
    (t.version != 0x0001_0000) | (t.kind == 0)
}

// Not `low` to `high`.
#[tactic(auto, unfolding(pdi_spec::specs::Rules::not_from))]
fn not_from(low: u32, high: u32, n: u32) -> bool
    ensures { result ≡ not_from low high n }
{
    !(low..=high).contains(&n)
}

// Rule 6.
#[tactic(auto, unfolding(pdi_spec::specs::Rules::table_fields_bad, pdi_spec::specs::Lists::any_true))]
pub(crate) fn table_fields_bad(t: TableHeader) -> bool
    ensures { result ≡ table_fields_bad (table_of t) }
{
    let sizes = t.header_sizes;
    not_from(1, MOST_IMAGES, t.images)
        | not_from(1, MOST_PARTITIONS as u32, t.partitions)
        | (sizes.table_words() != TableHeader::WORDS)
        | (sizes.image_header_words() != ImageHeader::WORDS)
        | (sizes.partition_header_words() != TableHeader::WORDS)
        | (t.optional_words % 4 != 0)
        | (t.reserved != 0)
}

// Rule 7.
#[tactic(auto, unfolding(pdi_spec::specs::Rules::table_key_unknown))]
pub(crate) fn table_key_unknown(t: TableHeader) -> bool
    ensures { result ≡ table_key_unknown (table_of t) }
{
    !keys::zero_or_common(t.key)
}

// Rule 8, of a full image that has room for a boot header.
#[tactic(auto, unfolding(pdi_spec::specs::Rules::boot_header_bad, pdi_spec::specs::Lists::any_true))]
fn boot_header_bad(image: &[u8], t: TableHeader, b: BootHeader) -> bool
    requires { boot_size ≤ length image.now }
    ensures { result ≡ boot_header_bad image.now (table_of t) (boot_of b) }
{
    ((t.place as u64) < (BootHeader::SIZE as u64))
        | (b.width_detection != 0xAA99_5566)
        | !b.identified
        | (b.checksum
            != words::boot_checksum(
                image,
                BootHeader::CHECKSUMMED,
                BootHeader::CHECKSUMMED_WORDS,
            ))
        | !keys::zero_or_common(b.key)
        | !((t.key == 0) | (t.key == b.key))
        | (b.plm_length < 1)
        | (b.plm_total < b.plm_length)
        | (b.cdo_total < b.cdo_length)
        | (u64::from(b.source_offset) < (BootHeader::SIZE as u64))
        | ranges::past(
            image.len() as u64,
            Range {
                start: u64::from(b.source_offset),
                size: u64::from(b.plm_total),
            },
        )
}

// Rule 8. A partial image has no boot header to read; and only behind the place that it takes up may a full image's table lie.
#[tactic(auto, unfolding(pdi_spec::specs::Rules::boot_header_bad, pdi_spec::specs::Lists::any_true))]
pub(crate) fn boot_header_wrong(image: &[u8], t: TableHeader) -> bool
    requires { t.place + header_size ≤ length image.now }
    ensures { result ≡ (eqb t.kind 1 && boot_header_bad image.now (table_of t) (boot_from image.now)) }
{
    if t.kind != 1 {
        return false;
    }
    if t.place < BootHeader::SIZE {
        return true;
    }
    boot_header_bad(image, t, BootHeader::read(image))
}

// Rule 9.
#[tactic(auto, unfolding(pdi_spec::specs::Rules::image_headers_outside))]
pub(crate) fn image_headers_outside(image: &[u8], t: TableHeader) -> bool
    ensures { result ≡ image_headers_outside image.now (table_of t) }
{
    ranges::past(image.len() as u64, t.with_optional())
        | ranges::past(image.len() as u64, t.image_headers())
}
