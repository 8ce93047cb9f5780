// Rules 11 to 16 along the chain. A rule is tried only if all lower ones hold for every partition: so each header tells its lowest broken
// rule, and the lowest of these is answered, with the first partition that has it.
ghost use Rattle.std.specs.Prelude.{◌+◌, ◌<◌, ◌≡◌};
ghost use Rattle.pdi_spec.specs.RuleList.{header_rules};
ghost use Rattle.pdi_spec.specs.Verdict.{verdict};
ghost use Rattle.refusals.specs.Refusals.{outcome_of};
ghost use Rattle.chain_rules.specs.File.{file_of_chain};
ghost use Rattle.header_rules.specs.Headers.{HeaderTold, lower_of, number_in};

use crate::conditions;
use chain_rules::Chain;
use headers::PartitionHeader;
use refusals::{Refusal, Rule};

// The header of partition i + 1, or the lowest rule that it breaks: the tests run in the order of their numbers, so the first that is true
// has the lowest.
#[tactic(auto, unfolding(pdi_spec::specs::RuleList::header_rules, pdi_spec::specs::Verdict::each, pdi_spec::specs::Verdict::first_broken))]
fn check_header(chain: &Chain, i: usize) -> Result<PartitionHeader, Rule>
    requires { i < chain.now.table.partitions }
    ensures { HeaderTold (file_of_chain chain.now) (i + 1) result }
{
    let image = chain.image;
    let h = chain.header(i);
    if conditions::header_checksum_bad(image, h) {
        return Err(Rule::HeaderChecksumBad);
    }
    if conditions::attributes_bad(h) {
        return Err(Rule::AttributesBad);
    }
    if conditions::key_unknown(h) {
        return Err(Rule::KeyUnknown);
    }
    if conditions::lengths_bad(h) {
        return Err(Rule::LengthsBad);
    }
    if conditions::span_outside(image, h) {
        return Err(Rule::SpanOutside);
    }
    if conditions::load_address_bad(h) {
        return Err(Rule::LoadAddressBad);
    }
    Ok(h)
}

// The lower of what the earlier headers and partition p's header say; of equal numbers the earlier partition stays.
#[tactic(auto, unfolding(crate::specs::Headers::lower_of))]
fn lower(
    earlier: Result<(), Refusal>,
    found: Result<PartitionHeader, Rule>,
    p: u32,
) -> Result<(), Refusal>
    ensures { outcome_of result ≡ lower_of (outcome_of earlier) (number_in found) p }
{
    let Err(rule) = found else {
        return earlier;
    };
    let Err(lowest) = earlier else {
        return Err(Refusal { rule, partition: p });
    };
    if rule.number() < lowest.rule.number() {
        Err(Refusal { rule, partition: p })
    } else {
        earlier
    }
}

// Rules 11 to 16 of every header.
#[tactic(auto, using(crate::proofs::Lowest::one_more))]
pub fn check_headers(chain: &Chain) -> Result<(), Refusal>
    ensures { outcome_of result ≡ verdict header_rules (file_of_chain chain.now) }
{
    let mut lowest = Ok(());
    for i in 0..chain.table.partitions as usize {
        lowest = lower(lowest, check_header(chain, i), i as u32 + 1);
    }
    lowest
}
