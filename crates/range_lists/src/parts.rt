// One range of a partition.
ghost use Rattle.std.specs.Prelude.{◌≡◌};
ghost use Rattle.range_lists.specs.Parts.{load_of, numbered, part_of};
ghost use Rattle.headers.specs.Headers.{header_of};
ghost use Rattle.ranges.specs.Range.{range_of};

use headers::PartitionHeader;
use ranges::Range;

// Which range of a partition is meant: its header, all its stored bytes, the first of them that are its body, or its load range.
#[derive(Clone, Copy, Debug, PartialEq, Eq)]
pub enum Part {
    Header,
    Span,
    Body,
    Load,
}

// The part that a number means: 0 the header, 1 the span, 2 the body, and every other one the load range.
impl From<u8> for Part {
    ghost from_gives = { λ n part. part ≡ numbered n };

    #[tactic(auto, unfolding(crate::specs::Parts::numbered))]
    fn from(n: u8) -> Part {
        match n {
            0 => Part::Header,
            1 => Part::Span,
            2 => Part::Body,
            _ => Part::Load,
        }
    }
}

impl Part {
    // That range of a partition.
    pub fn of(self, h: PartitionHeader) -> Range
        ensures { range_of result ≡ part_of self (header_of h) }
    {
        match self {
            Part::Header => h.range(),
            Part::Span => h.span(),
            Part::Body => h.body(),
            Part::Load => load_of(h),
        }
    }
}

// The load range: empty where the partition has no load address, so that it meets none.
#[tactic(auto, unfolding(crate::specs::Parts::load_of))]
pub fn load_of(h: PartitionHeader) -> Range
    ensures { range_of result ≡ load_of (header_of h) }
{
    if h.attributes.has_load_address() {
        return h.load_range();
    }
    Range { start: 0, size: 0 }
}
