// Ranges in order, as every tool lays them out: a quick yes, after which no pair needs to be looked at. A no says nothing.
ghost use Rattle.std.specs.Prelude.{false, map, true, ◌≡◌};
ghost use Rattle.pairs.specs.Lists.{crossing};
ghost use Rattle.pairs.specs.Order.{InOrder, Outside};
ghost use Rattle.ranges.specs.Range.{range_of};

use ranges::Range;

// Each range follows the one before it, or equals it where that is allowed.
pub(crate) fn in_order(ranges: &[Range], equals: bool) -> bool
    ensures { result ≡ true → InOrder equals (map range_of ranges.now) }
{
    ranges.is_sorted_by(|a, b| ranges::before(*a, *b) || (equals && a == b))
}

// Each range lies before one range or after another.
fn all_outside(first: Range, last: Range, ranges: &[Range]) -> bool
    ensures { result ≡ true → Outside (range_of first) (range_of last) (map range_of ranges.now) }
{
    ranges
        .iter()
        .all(|r| ranges::before(*r, first) || ranges::before(last, *r))
}

// The blocks are in order, and each range lies before the first or after the last of them.
#[tactic(auto, using(crate::proofs::Following::none_cross))]
pub(crate) fn all_apart(blocks: &[Range], ranges: &[Range]) -> bool
    ensures { result ≡ true → crossing (map range_of blocks.now) (map range_of ranges.now) ≡ false }
{
    let (Some(first), Some(last)) = (blocks.first(), blocks.last()) else {
        return true;
    };
    in_order(blocks, true) && all_outside(*first, *last, ranges)
}
