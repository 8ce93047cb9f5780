// The core: a question's rules in their order, one stage after another. Every question stands on it.
#![tactic(auto)]

ghost use Rattle.std.specs.Prelude.{◌≡◌, ◌≤◌, IfOk};
ghost use Rattle.pdi_spec.specs.Answers.{asked};
ghost use Rattle.pdi_spec.specs.Limits.{most_partitions};
ghost use Rattle.pdi_spec.specs.RuleList.{later_rules, plain_rules};
ghost use Rattle.pdi_spec.specs.Verdict.{verdict};
ghost use Rattle.refusals.specs.Refusals.{outcome_of};
ghost use Rattle.chain_rules.specs.Chain.{file_of};
ghost use Rattle.image_rules.specs.Runs.{ImageHeadersInside};
ghost use Rattle.checks.specs.Readings.{Held, ReadFrom, core_rules};

use headers::TableHeader;
use refusals::{Refusal, Rule};
use rows::Accepted;

// Rule 1: the longest image, in bytes.
const LONGEST: usize = 1_073_741_824;

// Rules 10 to 20, of a table that keeps the others.
#[tactic(auto, using(crate::proofs::Stages::stages))]
fn check_partitions(image: &[u8], table: TableHeader) -> Result<Accepted<'_>, Refusal>
    requires few { table.partitions ≤ most_partitions }
    requires images { ImageHeadersInside image.now table }
    ensures told { outcome_of result ≡ verdict later_rules (file_of image.now table) }
    ensures read { IfOk result (ReadFrom image.now table) }
{
    let chain = chain_rules::check_chain(image, table)?;
    header_rules::check_headers(&chain)?;
    let entries = block_rules::check_blocks(&chain)?;
    clash_rules::check_stored(&chain)?;
    clash_rules::check_loads(&chain)?;
    image_rules::check_images(&chain)?;
    let bill = rows::billed(&chain);
    Ok(Accepted {
        chain,
        entries,
        bill,
    })
}

// The rules in their order: 1, then 2 where a row buffer is too short, then those of the image itself.
#[tactic(auto, using(crate::proofs::Outcomes::outcomes))]
pub fn check(image: &[u8], place: usize, short: bool) -> Result<Accepted<'_>, Refusal>
    ensures told { outcome_of result ≡ verdict (core_rules short plain_rules) (asked image.now place) }
    ensures held { IfOk result (Held image.now place) }
{
    if LONGEST < image.len() {
        return Err(Rule::ImageTooLong.into());
    }
    if short {
        return Err(Rule::BufferTooShort.into());
    }
    let table = table_rules::check_table(image, place)?;
    check_partitions(image, table)
}
