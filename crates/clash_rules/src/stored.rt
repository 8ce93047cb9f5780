// Rule 18: the boot header, the table, the image headers, the partition headers and the spans are disjoint; each hash block is disjoint
// from all of them but spans, and from each body; two hash blocks are equal or disjoint.
ghost use Rattle.std.specs.Prelude.{◌+◌, ◌≤◌, [], ◌∷◌, ◌++◌, ◌≡◌, map};
ghost use Rattle.arrayvec.specs.ArrayVec.{array_vec_len};
ghost use Rattle.pdi_spec.specs.Ranges.{bodies, hash_blocks, header_ranges};
ghost use Rattle.pdi_spec.specs.Rules.{stored_ranges_clash};
ghost use Rattle.pdi_spec.specs.RuleList.{rule18};
ghost use Rattle.pdi_spec.specs.Verdict.{verdict};
ghost use Rattle.ranges.specs.Range.{range_of};
ghost use Rattle.refusals.specs.Refusals.{image_outcome_of};
ghost use Rattle.chain_rules.specs.File.{file_of_chain};
ghost use Rattle.pairs.specs.Lists.{block_clash, most_ranges};

use chain_rules::Chain;
use range_lists::{Part, Ranges, push_parts, put_blocks, put_headers};
use refusals::Rule;

// Hash blocks clash with headers or bodies, or with each other. The list has the headers, and gets the bodies after them.
#[tactic(auto, using(crate::proofs::Lists::no_blocks, crate::proofs::Lists::blocks_told))]
fn blocks_clash(chain: &Chain, ranges: &mut Ranges) -> bool
    requires headers { map range_of ranges.old.items ≡ header_ranges (file_of_chain chain.now) }
    requires room { array_vec_len ranges.old + chain.now.table.partitions ≤ most_ranges }
    ensures { result ≡ block_clash (hash_blocks (file_of_chain chain.now))
        (header_ranges (file_of_chain chain.now) ++ bodies (file_of_chain chain.now)) }
{
    let mut blocks = Ranges::new();
    put_blocks(chain, &mut blocks);
    if blocks.is_empty() {
        return false;
    }
    push_parts(chain, Part::Body, ranges);
    pairs::any_block_clash(&blocks, ranges)
}

// Some two ranges clash that rule 18 wants disjoint.
#[tactic(auto, using(crate::proofs::Lists::stored_laws))]
fn stored_clash(chain: &Chain) -> bool
    ensures { result ≡ stored_ranges_clash (file_of_chain chain.now) }
{
    let mut ranges = Ranges::new();
    put_headers(chain, &mut ranges);
    let headers = ranges.len();
    push_parts(chain, Part::Span, &mut ranges);
    if pairs::any_clash(&ranges, false) {
        return true;
    }
    ranges.truncate(headers);
    blocks_clash(chain, &mut ranges)
}

// Rule 18.
#[tactic(auto, using(crate::proofs::Lists::stored_broken, crate::proofs::Lists::stored_kept))]
pub fn check_stored(chain: &Chain) -> Result<(), Rule>
    ensures { image_outcome_of result ≡ verdict (rule18 ∷ []) (file_of_chain chain.now) }
{
    if stored_clash(chain) {
        return Err(Rule::StoredRangesClash);
    }
    Ok(())
}
