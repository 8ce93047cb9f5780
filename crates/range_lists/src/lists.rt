// The lists that rule 18 compares.
ghost use Rattle.std.specs.Prelude.{◌+◌, ◌≤◌, ◌<◌, ◌++◌, ◌≡◌, map};
ghost use Rattle.arrayvec.specs.ArrayVec.{array_vec_len};
ghost use Rattle.pdi_spec.specs.Ranges.{block_ranges, hash_blocks, header_ranges};
ghost use Rattle.headers.specs.Headers.{block_of, table_of};
ghost use Rattle.ranges.specs.Range.{range_of};
ghost use Rattle.chain_rules.specs.File.{file_of_chain};
ghost use Rattle.pairs.specs.Lists.{most_ranges};
ghost use Rattle.range_lists.specs.Parts.{first_ranges, parts_of};

use crate::Part;
use arrayvec::ArrayVec;
use chain_rules::Chain;
use headers::{Block, BootHeader, TableHeader};
use pairs::MOST_RANGES;
use ranges::Range;

// A list of ranges, which lies in the value itself: nothing is allocated.
pub type Ranges = ArrayVec<Range, MOST_RANGES>;

// Appends the boot header of a full image, the table with its optional data, the image headers.
fn push_first(table: TableHeader, ranges: &mut Ranges)
    requires { array_vec_len ranges.old + 3 ≤ most_ranges }
    ensures pushed { map range_of ranges.new.items
        ≡ map range_of ranges.old.items ++ first_ranges (table_of table) }
    ensures few { array_vec_len ranges.new ≤ array_vec_len ranges.old + 3 }
{
    if table.kind == 1 {
        ranges.push(BootHeader::range());
    }
    ranges.push(table.with_optional());
    ranges.push(table.image_headers());
}

// Appends one range of each partition.
#[tactic(auto, using(crate::proofs::Joined::parts_none, crate::proofs::Joined::parts_more, crate::proofs::Joined::parts_all))]
pub fn push_parts(chain: &Chain, part: Part, ranges: &mut Ranges)
    requires { array_vec_len ranges.old + chain.now.table.partitions ≤ most_ranges }
    ensures pushed { map range_of ranges.new.items
        ≡ map range_of ranges.old.items ++ parts_of part (file_of_chain chain.now) }
    ensures counted { array_vec_len ranges.new
        ≡ array_vec_len ranges.old + chain.now.table.partitions }
{
    for i in 0..chain.table.partitions as usize {
        ranges.push(part.of(chain.header(i)));
    }
}

// Makes the list that of all ranges of headers: those before the partitions', and each partition header.
#[tactic(auto, using(crate::proofs::Joined::headers_joined))]
pub fn put_headers(chain: &Chain, ranges: &mut Ranges)
    ensures put { map range_of ranges.new.items ≡ header_ranges (file_of_chain chain.now) }
    ensures few { array_vec_len ranges.new + chain.now.table.partitions ≤ most_ranges }
{
    ranges.clear();
    push_first(chain.table, ranges);
    push_parts(chain, Part::Header, ranges);
}

// Appends a hash block, where there is one.
#[tactic(auto, using(crate::proofs::Joined::block_pushed, crate::proofs::Joined::no_block_pushed))]
fn push_block(block: Block, ranges: &mut Ranges)
    requires { array_vec_len ranges.old < most_ranges }
    ensures pushed { map range_of ranges.new.items
        ≡ map range_of ranges.old.items ++ block_ranges (block_of block) }
    ensures few { array_vec_len ranges.new ≤ array_vec_len ranges.old + 1 }
{
    if !block.is_absent() {
        ranges.push(block.range());
    }
}

// Makes the list that of the table's hash block, then each partition's, where there is one.
#[tactic(auto, using(crate::proofs::Joined::blocks_none, crate::proofs::Joined::blocks_more, crate::proofs::Joined::blocks_all))]
pub fn put_blocks(chain: &Chain, ranges: &mut Ranges)
    ensures { map range_of ranges.new.items ≡ hash_blocks (file_of_chain chain.now) }
{
    ranges.clear();
    push_block(chain.table.block, ranges);
    for i in 0..chain.table.partitions as usize {
        push_block(chain.header(i).block, ranges);
    }
}
