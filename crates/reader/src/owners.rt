// Owner: the image that a partition of an accepted image belongs to.
ghost use Rattle.std.specs.Prelude.{◌≡◌};
ghost use Rattle.pdi_spec.specs.Answers.{owner_answer};

use checks::check;
use image_rules::{ImageHeaders, owner_of};

// Counted from 1 in table order; 0 for a refused image, and for a p that isn't 1 to N.
#[tactic(auto, using(crate::proofs::Questions::owned_by))]
pub fn owner(image: &[u8], place: usize, p: usize) -> u64
    ensures { result ≡ owner_answer image.now place p }
{
    let Ok(accepted) = check(image, place, false) else {
        return 0;
    };
    let table = accepted.chain.table;
    if p < 1 {
        return 0;
    }
    if (table.partitions as usize) < p {
        return 0;
    }
    owner_of(&ImageHeaders { image, table }, p)
}
