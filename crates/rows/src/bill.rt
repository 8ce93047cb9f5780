// The billed bytes.
ghost use Rattle.std.specs.Prelude.{◌≡◌};
ghost use Rattle.pdi_spec.specs.Answers.{billed};
ghost use Rattle.chain_rules.specs.File.{file_of_chain};

use chain_rules::Chain;

// 4 × the sum of all total lengths.
#[tactic(auto, using(crate::proofs::Totals::totals_none, crate::proofs::Totals::totals_more, crate::proofs::Totals::totals_all))]
pub fn billed(chain: &Chain) -> u64
    ensures { result ≡ billed (file_of_chain chain.now) }
{
    let mut words: u64 = 0;
    for i in 0..chain.table.partitions as usize {
        words += u64::from(chain.header(i).total);
    }
    4 * words
}
