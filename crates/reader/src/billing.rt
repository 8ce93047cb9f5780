// Bill: the billed bytes of an accepted image.
ghost use Rattle.std.specs.Prelude.{◌≡◌};
ghost use Rattle.pdi_spec.specs.Answers.{bill_answer};

use checks::check;

// 0 for a refused image.
#[tactic(auto, using(crate::proofs::Questions::billed_by))]
pub fn bill(image: &[u8], place: usize) -> u64
    ensures { result ≡ bill_answer image.now place }
{
    let Ok(accepted) = check(image, place, false) else {
        return 0;
    };
    accepted.bill
}
