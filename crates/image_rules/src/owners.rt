// The owner image of a partition.
ghost use Rattle.std.specs.Prelude.{◌≡◌};
ghost use Rattle.pdi_spec.specs.Images.{owner_image};
ghost use Rattle.chain_rules.specs.Chain.{file_of};

use crate::ImageHeaders;

// The first image that owns p partitions together with those before it, counted from 1; 0 where none does. 32 counts fit in 64 bits.
#[tactic(auto, using(crate::proofs::Owned::unreached, crate::proofs::ImageRuns::images_are))]
pub fn owner_of(headers: &ImageHeaders, p: usize) -> u64
    ensures { result ≡ owner_image (file_of headers.now.image.now headers.now.table) p }
{
    let mut owned: usize = 0;
    for i in 0..headers.table.images as usize {
        let h = headers.header(i);
        owned += h.partitions as usize;
        if p <= owned {
            return i as u64 + 1;
        }
    }
    0
}
