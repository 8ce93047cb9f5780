// Rule 19: p is the smallest partition whose load range meets an earlier partition's.
ghost use Rattle.std.specs.Prelude.{true, [], ◌∷◌, ◌≡◌};
ghost use Rattle.pdi_spec.specs.RuleList.{rule19};
ghost use Rattle.pdi_spec.specs.Verdict.{accepted, verdict};
ghost use Rattle.refusals.specs.Refusals.{outcome_of};
ghost use Rattle.chain_rules.specs.File.{file_of_chain};

use chain_rules::Chain;
use range_lists::load_of;
use ranges::Range;
use refusals::{Refusal, Rule};

// Each load range starts at or after the end of the one before it: a quick yes, after which none meet. A no says nothing.
#[tactic(auto, using(crate::proofs::Meetings::loads_apart))]
fn in_order(chain: &Chain) -> bool
    ensures { result ≡ true → verdict (rule19 ∷ []) (file_of_chain chain.now) ≡ accepted }
{
    let mut last = Range { start: 0, size: 0 };
    for i in 0..chain.table.partitions as usize {
        let r = load_of(chain.header(i));
        if 0 < r.size {
            if !ranges::before(last, r) {
                return false;
            }
            last = r;
        }
    }
    true
}

// Rule 19. Only load ranges out of order need every pair.
#[tactic(auto, using(crate::proofs::Meetings::loads_apart))]
pub fn check_loads(chain: &Chain) -> Result<(), Refusal>
    ensures { outcome_of result ≡ verdict (rule19 ∷ []) (file_of_chain chain.now) }
{
    if in_order(chain) {
        return Ok(());
    }
    let mut found = None;
    'partitions: for i in 0..chain.table.partitions as usize {
        let a = load_of(chain.header(i));
        for j in 0..i {
            let b = load_of(chain.header(j));
            if ranges::overlap(a, b) {
                found = Some(i as u32 + 1);
                break 'partitions;
            }
        }
    }
    let Some(partition) = found else {
        return Ok(());
    };
    Err(Refusal {
        rule: Rule::LoadRangesClash,
        partition,
    })
}
