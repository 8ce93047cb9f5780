// Rule 10: the chain of the partition headers, followed.
ghost use Rattle.std.specs.Prelude.{[], ◌∷◌, ◌≤◌, ◌≡◌, IfOk};
ghost use Rattle.pdi_spec.specs.File.{header_at};
ghost use Rattle.pdi_spec.specs.Limits.{most_partitions};
ghost use Rattle.pdi_spec.specs.RuleList.{rule10};
ghost use Rattle.pdi_spec.specs.Verdict.{verdict};
ghost use Rattle.chain_rules.specs.Chain.{IsTable, file_of, link_at};
ghost use Rattle.refusals.specs.Refusals.{outcome_of};

use crate::Chain;
use headers::{MOST_PARTITIONS, PartitionHeader, TableHeader};
use ranges::Range;
use refusals::{Refusal, Rule};

// The word offset of the header after partition p's, whose header lies at a byte offset: 0 at the last. None where the header is past the
// image, or the chain ends here too early or too late.
#[tactic(auto, using(crate::proofs::Links::one_link))]
fn link_at(image: &[u8], table: TableHeader, p: usize, at: usize) -> Option<u32>
    requires own { IsTable image.now table }
    requires place { at ≡ header_at (file_of image.now table) p }
    ensures { result ≡ link_at (file_of image.now table) p }
{
    let n = table.partitions as usize;
    let bytes = Range {
        start: at as u64,
        size: PartitionHeader::SIZE as u64,
    };
    if ranges::past(image.len() as u64, bytes) {
        return None;
    }
    let h = PartitionHeader::read(image, at);
    if ((p < n) & (h.next == 0)) | ((p == n) & (h.next != 0)) {
        return None;
    }
    Some(h.next)
}

// Follows the chain and finds where each header lies.
#[tactic(auto, using(crate::proofs::Chains::along))]
pub fn check_chain(image: &[u8], table: TableHeader) -> Result<Chain<'_>, Refusal>
    requires own { IsTable image.now table }
    requires few { table.partitions ≤ most_partitions }
    ensures told { outcome_of result ≡ verdict (rule10 ∷ []) (file_of image.now table) }
    ensures chain { IfOk result (λ chain. (chain.image.now ≡ image.now) × (chain.table ≡ table)) }
{
    let mut offsets = [0usize; MOST_PARTITIONS];
    let mut at = 4 * (table.first_header_offset as usize);
    for i in 0..table.partitions as usize {
        let Some(next) = link_at(image, table, i + 1, at) else {
            return Err(Refusal {
                rule: Rule::ChainBroken,
                partition: i as u32 + 1,
            });
        };
        offsets[i] = at;
        at = 4 * (next as usize);
    }
    Ok(Chain {
        image,
        table,
        offsets,
    })
}
