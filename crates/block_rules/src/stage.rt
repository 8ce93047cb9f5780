// Rule 17 of the table's block, and then of each partition's.
ghost use Rattle.std.specs.Prelude.{[], ◌∷◌, ◌≡◌, IfOk};
ghost use Rattle.pdi_spec.specs.RuleList.{rule17};
ghost use Rattle.pdi_spec.specs.Verdict.{verdict};
ghost use Rattle.refusals.specs.Refusals.{outcome_of};
ghost use Rattle.chain_rules.specs.File.{file_of_chain};
ghost use Rattle.block_rules.specs.Blocks.{Entries};

use crate::entries::check_block;
use chain_rules::Chain;
use headers::MOST_PARTITIONS;
use refusals::{Refusal, Rule};

// The byte offset of each partition's own entry, 0 where it has no block. The table's own block has index 0, partition p's index p.
#[tactic(auto, using(crate::proofs::Blocks::kept, chain_rules::proofs::Counts::count_is))]
pub fn check_blocks(chain: &Chain) -> Result<[usize; MOST_PARTITIONS], Refusal>
    ensures told { outcome_of result ≡ verdict (rule17 ∷ []) (file_of_chain chain.now) }
    ensures entries { IfOk result (λ entries. Entries chain.now.image.now chain.now.table entries) }
{
    let image = chain.image;
    let table = chain.table;
    let mut entries = [0usize; MOST_PARTITIONS];
    check_block(image, 0, table.block)?;
    for i in 0..table.partitions as usize {
        let h = chain.header(i);
        let Ok(entry) = check_block(image, i + 1, h.block) else {
            return Err(Refusal {
                rule: Rule::HashBlockWrong,
                partition: i as u32 + 1,
            });
        };
        entries[i] = entry;
    }
    Ok(entries)
}
