// Rules 3 to 9, one after another.
ghost use Rattle.std.specs.Prelude.{◌≡◌, IfOk};
ghost use Rattle.pdi_spec.specs.Answers.{asked};
ghost use Rattle.pdi_spec.specs.File.{table};
ghost use Rattle.pdi_spec.specs.RuleList.{table_rules};
ghost use Rattle.pdi_spec.specs.Verdict.{verdict};
ghost use Rattle.headers.specs.Headers.{table_of};
ghost use Rattle.refusals.specs.Refusals.{image_outcome_of};

use crate::conditions;
use headers::TableHeader;
use refusals::Rule;

// The table, or the lowest rule that is broken: the tests run in the order of their numbers, so the first that is true has the lowest.
#[tactic(auto, using(crate::proofs::Answers::told_by_rule), unfolding(pdi_spec::specs::File::table, pdi_spec::specs::Headers::table_from))]
pub fn check_table(image: &[u8], place: usize) -> Result<TableHeader, Rule>
    ensures told { image_outcome_of result ≡ verdict table_rules (asked image.now place) }
    ensures table { IfOk result (λ t. table_of t ≡ table (asked image.now place)) }
{
    if conditions::table_outside(image, place) {
        return Err(Rule::TableOutside);
    }
    let t = TableHeader::read(image, place);
    if conditions::table_checksum_wrong(image, t) {
        return Err(Rule::TableChecksumWrong);
    }
    if conditions::kind_unknown(t) {
        return Err(Rule::KindUnknown);
    }
    if conditions::table_fields_bad(t) {
        return Err(Rule::TableFieldsBad);
    }
    if conditions::table_key_unknown(t) {
        return Err(Rule::TableKeyUnknown);
    }
    if conditions::boot_header_wrong(image, t) {
        return Err(Rule::BootHeaderWrong);
    }
    if conditions::image_headers_outside(image, t) {
        return Err(Rule::ImageHeadersOutside);
    }
    Ok(t)
}
