// Rule 20: each image header has a right checksum and owns a run of the chain, the runs follow one another in table order, and together
// they are the whole chain.
ghost use Rattle.std.specs.Prelude.{◌+◌, ◌<◌, [], ◌∷◌, ◌≡◌};
ghost use Rattle.pdi_spec.specs.Images.{owned_up_to};
ghost use Rattle.pdi_spec.specs.RuleList.{rule20};
ghost use Rattle.pdi_spec.specs.Verdict.{verdict};
ghost use Rattle.refusals.specs.Refusals.{image_outcome_of};
ghost use Rattle.chain_rules.specs.Chain.{IsChain, file_of};
ghost use Rattle.chain_rules.specs.File.{file_of_chain};
ghost use Rattle.image_rules.specs.Runs.{ImageHeadersInside, run_at};

use crate::ImageHeaders;
use chain_rules::Chain;
use headers::{ImageHeader, MOST_PARTITIONS};
use refusals::Rule;

// How many partitions image i + 1 and the images before it own, where those before it own that many. None where its header breaks rule 20,
// or where no partition is left for it. No partition header past the last is looked at.
#[tactic(auto, using(crate::proofs::ImageRuns::run_none, crate::proofs::ImageRuns::run_some))]
fn run_at(
    headers: &ImageHeaders,
    offsets: &[usize; MOST_PARTITIONS],
    i: usize,
    owned: usize,
) -> Option<usize>
    requires chain { IsChain headers.now.image.now headers.now.table offsets.now }
    requires counted { i < headers.now.table.images }
    requires before { owned ≡ owned_up_to (file_of headers.now.image.now headers.now.table) i }
    ensures { result ≡ run_at (file_of headers.now.image.now headers.now.table) (i + 1) }
{
    if (headers.table.partitions as usize) <= owned {
        return None;
    }
    let h = headers.header(i);
    let sum = words::checksum(headers.image, h.at, ImageHeader::CHECKSUMMED_WORDS);
    if (h.checksum != sum)
        | (h.partitions < 1)
        | (4 * (h.first_header_offset as usize) != offsets[owned])
    {
        return None;
    }
    Some(owned + (h.partitions as usize))
}

// Rule 20.
#[tactic(auto, using(crate::proofs::ImageRuns::along))]
pub fn check_images(chain: &Chain) -> Result<(), Rule>
    requires { ImageHeadersInside chain.now.image.now chain.now.table }
    ensures { image_outcome_of result ≡ verdict (rule20 ∷ []) (file_of_chain chain.now) }
{
    let headers = ImageHeaders {
        image: chain.image,
        table: chain.table,
    };
    let mut owned: usize = 0;
    for i in 0..chain.table.images as usize {
        let Some(end) = run_at(&headers, &chain.offsets, i, owned) else {
            return Err(Rule::ImageHeadersBad);
        };
        owned = end;
    }
    if owned != (chain.table.partitions as usize) {
        return Err(Rule::ImageHeadersBad);
    }
    Ok(())
}
