// What rules 11 to 16 ask of one header. Tests are joined by `|` and `&`, which run both sides: with no branch, one fact is left to prove
// of a function, that its answer is the definition's.
ghost use Rattle.std.specs.Prelude.{◌≡◌, ◌+◌, ◌≤◌, length};
ghost use Rattle.pdi_spec.specs.Headers.{header_size};
ghost use Rattle.pdi_spec.specs.Rules.{attributes_bad, header_checksum_bad, key_unknown, lengths_bad, load_address_bad, span_outside};
ghost use Rattle.headers.specs.Headers.{header_of};

use attributes::Attributes;
use headers::{HashEntry, PartitionHeader};
use ranges::Range;

// Rule 11.
#[tactic(auto, unfolding(pdi_spec::specs::Rules::header_checksum_bad))]
pub(crate) fn header_checksum_bad(image: &[u8], h: PartitionHeader) -> bool
    requires { h.at + header_size ≤ length image.now }
    ensures { result ≡ header_checksum_bad image.now (header_of h) }
{
    h.checksum != words::checksum(image, h.at, PartitionHeader::CHECKSUMMED_WORDS)
}

// Rule 12.
#[tactic(auto, unfolding(pdi_spec::specs::Rules::attributes_bad))]
pub(crate) fn attributes_bad(h: PartitionHeader) -> bool
    ensures { result ≡ attributes_bad (header_of h) }
{
    let a: Attributes = h.attributes;
    (h.reserved != 0) | a.is_bad()
}

// Rule 13.
#[tactic(auto, unfolding(pdi_spec::specs::Rules::key_unknown))]
pub(crate) fn key_unknown(h: PartitionHeader) -> bool
    ensures { result ≡ key_unknown (header_of h) }
{
    !keys::zero_common_or_user(h.key)
}

// Rule 14.
#[tactic(auto, unfolding(pdi_spec::specs::Rules::lengths_bad, pdi_spec::specs::Lists::any_true))]
pub(crate) fn lengths_bad(h: PartitionHeader) -> bool
    ensures { result ≡ lengths_bad (header_of h) }
{
    (h.unencrypted < 1)
        | (h.encrypted < h.unencrypted)
        | (h.total < h.encrypted)
        | (h.key_total < h.key_actual)
        | (h.signature_total < h.signature_actual)
}

// Rule 15.
#[tactic(auto, unfolding(pdi_spec::specs::Rules::span_outside))]
pub(crate) fn span_outside(image: &[u8], h: PartitionHeader) -> bool
    ensures { result ≡ span_outside image.now (header_of h) }
{
    let a: Attributes = h.attributes;
    ranges::past(image.len() as u64, h.span())
        | ((a.checksum_type() == 3)
            & ranges::past(
                image.len() as u64,
                Range {
                    start: 4 * u64::from(h.checksum_offset),
                    size: HashEntry::DIGEST_SIZE as u64,
                },
            ))
}

// Rule 16.
#[tactic(auto, unfolding(pdi_spec::specs::Rules::load_address_bad))]
pub(crate) fn load_address_bad(h: PartitionHeader) -> bool
    ensures { result ≡ load_address_bad (header_of h) }
{
    let a: Attributes = h.attributes;
    if a.has_load_address() {
        ranges::past_address_space(h.load_range())
    } else {
        !((h.load_low == 0xFFFF_FFFF) & (h.load_high == 0xFFFF_FFFF))
    }
}
