// What the rules have read of an image that keeps them.
ghost use Rattle.std.specs.Prelude.{◌≡◌};
ghost use Rattle.pdi_spec.specs.Answers.{billed};
ghost use Rattle.chain_rules.specs.File.{file_of_chain};
ghost use Rattle.block_rules.specs.Blocks.{Entries};

use chain_rules::Chain;
use headers::MOST_PARTITIONS;

// Its chain, the byte offset of each partition's own hash entry, 0 where it has no block, and the billed bytes.
#[derive(Clone, Copy)]
pub struct Accepted<'a> {
    pub chain: Chain<'a>,
    pub entries: [usize; MOST_PARTITIONS],
    pub bill: u64,
    pub ghost hashes: { Entries chain.image.now chain.table entries },
    pub ghost sum: { bill ≡ billed (file_of_chain chain) },
}
