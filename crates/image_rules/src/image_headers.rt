// The image headers of an image that has them all inside, and one of them.
ghost use Rattle.image_rules.specs.Runs.{ImageHeadersInside};

use headers::{ImageHeader, TableHeader};

// An image and its table, which says where the image headers lie.
#[derive(Clone, Copy)]
pub struct ImageHeaders<'a> {
    pub image: &'a [u8],
    pub table: TableHeader,
    pub ghost all_inside: { ImageHeadersInside image.now table },
}

impl ImageHeaders<'_> {
    ghost use Rattle.std.specs.Prelude.{◌+◌, ◌<◌, ◌≡◌};
    ghost use Rattle.pdi_spec.specs.Images.{image_header};
    ghost use Rattle.chain_rules.specs.Chain.{file_of};
    ghost use Rattle.headers.specs.Headers.{image_header_of};

    // The header of image i + 1.
    #[tactic(auto, unfolding(pdi_spec::specs::Images::image_header), using(crate::proofs::ImageRuns::place_is))]
    pub fn header(&self, i: usize) -> ImageHeader
        requires { i < self.now.table.images }
        ensures { image_header_of result ≡ image_header (file_of self.now.image.now self.now.table) (i + 1) }
    {
        let first = 4 * (self.table.image_header_offset as usize);
        ImageHeader::read(self.image, first + ImageHeader::SIZE * i)
    }
}
