// Whether some two ranges clash: of one list, or of two.
ghost use Rattle.std.specs.Prelude.{map, ◌≡◌};
ghost use Rattle.pdi_spec.specs.Lists.{any_of, any_pair};
ghost use Rattle.pairs.specs.Lists.{block_clash, clashes, crossing};
ghost use Rattle.ranges.specs.Range.{range_of};

use crate::order;
use ranges::Range;

// Two ranges overlap, and are not equal where `equals` allows that.
#[tactic(auto, unfolding(crate::specs::Lists::clashes), using(ranges::proofs::Equal::equal))]
fn clash(a: Range, b: Range, equals: bool) -> bool
    ensures { result ≡ clashes equals (range_of a) (range_of b) }
{
    ranges::overlap(a, b) && !(equals && a == b)
}

// One range clashes with some one of a list.
fn clashes_any(a: Range, others: &[Range], equals: bool) -> bool
    ensures { result ≡ any_of (clashes equals (range_of a)) (map range_of others.now) }
{
    others.iter().any(|b| clash(a, *b, equals))
}

// Some two ranges clash. Most images lay their ranges out in order, and then neighbours tell; only others need every pair.
pub fn any_clash(ranges: &[Range], equals: bool) -> bool
    ensures { result ≡ any_pair (clashes equals) (map range_of ranges.now) }
{
    if order::in_order(ranges, equals) {
        return false;
    }
    ranges
        .iter()
        .enumerate()
        .any(|(i, a)| clashes_any(*a, &ranges[i + 1..], equals))
}

// Some block overlaps some range.
fn any_crossing(blocks: &[Range], ranges: &[Range]) -> bool
    ensures { result ≡ crossing (map range_of blocks.now) (map range_of ranges.now) }
{
    if order::all_apart(blocks, ranges) {
        return false;
    }
    blocks.iter().any(|b| clashes_any(*b, ranges, false))
}

// Some block overlaps some range, or another block that it does not equal.
#[tactic(auto, unfolding(crate::specs::Lists::block_clash))]
pub fn any_block_clash(blocks: &[Range], ranges: &[Range]) -> bool
    ensures { result ≡ block_clash (map range_of blocks.now) (map range_of ranges.now) }
{
    any_crossing(blocks, ranges) || any_clash(blocks, true)
}
