// Ranges of numbers, as positions of the image or addresses. A range's end may be over 2^64, so no function adds start and size.
#![tactic(auto)]

ghost use Rattle.std.specs.Prelude.{◌≡◌};
ghost use Rattle.pdi_spec.specs.Ranges.{address_space, overlap, past};
ghost use Rattle.ranges.specs.Range.{ends_before, range_of};

// `size` numbers from `start` on.
#[derive(Clone, Copy, PartialEq, Eq, Default)]
pub struct Range {
    pub start: u64,
    pub size: u64,
}

// Some number lies in both: the later start lies in the other range, and its own range is not empty.
#[tactic(auto, unfolding(pdi_spec::specs::Ranges::overlap, pdi_spec::specs::Ranges::end_of))]
pub fn overlap(a: Range, b: Range) -> bool
    ensures { result ≡ overlap (range_of a) (range_of b) }
{
    if a.start <= b.start {
        b.start - a.start < a.size && 0 < b.size
    } else {
        a.start - b.start < b.size && 0 < a.size
    }
}

// The first range ends at or before the second's start.
#[tactic(auto, unfolding(crate::specs::Range::ends_before, pdi_spec::specs::Ranges::end_of))]
pub fn before(a: Range, b: Range) -> bool
    ensures { result ≡ ends_before (range_of a) (range_of b) }
{
    a.start <= b.start && a.size <= b.start - a.start
}

// The range's end is greater than `limit`.
#[tactic(auto, unfolding(pdi_spec::specs::Ranges::past, pdi_spec::specs::Ranges::end_of))]
pub fn past(limit: u64, a: Range) -> bool
    ensures { result ≡ past limit (range_of a) }
{
    limit < a.start || limit - a.start < a.size
}

// The range's end is greater than 2^64, which no u64 holds: its last number is compared with the last address.
#[tactic(auto, unfolding(pdi_spec::specs::Ranges::past, pdi_spec::specs::Ranges::end_of, pdi_spec::specs::Ranges::address_space))]
pub fn past_address_space(a: Range) -> bool
    ensures { result ≡ past address_space (range_of a) }
{
    0 < a.size && 0xFFFF_FFFF_FFFF_FFFF - a.start < a.size - 1
}
