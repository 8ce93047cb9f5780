// The chain of the partition headers that rule 10 has followed, and a header of it.
ghost use Rattle.chain_rules.specs.Chain.{IsChain};

use headers::{MOST_PARTITIONS, PartitionHeader, TableHeader};

// An image, its table, and the byte offset of each of its partition headers.
#[derive(Clone, Copy)]
pub struct Chain<'a> {
    pub image: &'a [u8],
    pub table: TableHeader,
    pub offsets: [usize; MOST_PARTITIONS],
    pub ghost followed: { IsChain image.now table offsets },
}

impl Chain<'_> {
    ghost use Rattle.std.specs.Prelude.{◌+◌, ◌<◌, ◌≡◌};
    ghost use Rattle.pdi_spec.specs.File.{header};
    ghost use Rattle.headers.specs.Headers.{header_of};
    ghost use Rattle.chain_rules.specs.File.{file_of_chain};

    // The header of partition i + 1.
    #[tactic(auto, unfolding(pdi_spec::specs::File::header))]
    pub fn header(&self, i: usize) -> PartitionHeader
        requires { i < self.now.table.partitions }
        ensures { header_of result ≡ header (file_of_chain self.now) (i + 1) }
    {
        PartitionHeader::read(self.image, self.offsets[i])
    }
}
