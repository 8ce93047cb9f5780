// One hash block: its entries, and what rule 17 says of it.
ghost use Rattle.std.specs.Prelude.{◌+◌, ◌*◌, ◌≤◌, ◌≡◌, length};
ghost use Rattle.pdi_spec.specs.HashBlock.{entries_in, entry_at, entry_size, has_index, size_of_entries};
ghost use Rattle.headers.specs.Headers.{block_of};
ghost use Rattle.block_rules.specs.Entries.{NextEntry, block_answer};

use headers::{Block, HashEntry, MOST_PARTITIONS};
use refusals::Rule;

// The most entries: one for the meta header, and one for each of the most partitions.
const MOST_ENTRIES: u32 = (MOST_PARTITIONS as u32) + 1;

// How many entries a block's size stands for.
#[tactic(auto, unfolding(pdi_spec::specs::HashBlock::entries_in))]
fn entries_in(b: Block) -> u32
    ensures { result ≡ entries_in b.size }
{
    b.size / (HashEntry::SIZE as u32)
}

// n entries, rounded up to a multiple of 16 bytes.
#[tactic(auto, unfolding(pdi_spec::specs::HashBlock::size_of_entries))]
fn size_of_entries(n: u32) -> u64
    ensures { result ≡ size_of_entries n }
{
    ((HashEntry::SIZE as u64) * u64::from(n) + 15) / 16 * 16
}

// The byte offset of entry k, counted from 0. That k is a u32 keeps the sum below 2^64.
#[tactic(auto, unfolding(pdi_spec::specs::HashBlock::entry_at))]
fn entry_at(b: Block, k: u32) -> usize
    ensures { result ≡ entry_at (block_of b) k }
{
    4 * (b.offset as usize) + HashEntry::SIZE * (k as usize)
}

// Entry k has the index i.
#[tactic(auto, unfolding(pdi_spec::specs::HashBlock::has_index, headers::specs::Headers::entry_from))]
fn has_index(image: &[u8], b: Block, i: usize, k: u32) -> bool
    requires { entry_at (block_of b) k + entry_size ≤ length image.now }
    ensures { result ≡ has_index image.now (block_of b) i k }
{
    let entry = HashEntry::read(image, entry_at(b, k));
    entry.index as usize == i
}

// The first entry from `from` on with the index i, of a block inside the image.
#[tactic(auto, unfolding(pdi_spec::specs::HashBlock::entries_in, pdi_spec::specs::HashBlock::entry_at))]
fn next_entry(image: &[u8], b: Block, i: usize, from: u32) -> Option<u32>
    requires { 4 * b.offset + b.size ≤ length image.now }
    ensures { NextEntry image.now (block_of b) i from result }
{
    (from..entries_in(b)).find(|k| has_index(image, b, i, *k))
}

// Rule 17, of the block of index i: exactly one of its entries has that index, and its byte offset is answered, or 0 where there is no
// block. Only a block that lies well is searched.
#[tactic(auto, using(crate::proofs::Block::one_block))]
pub(crate) fn check_block(image: &[u8], i: usize, b: Block) -> Result<usize, Rule>
    ensures { result ≡ block_answer image.now i (block_of b) }
{
    if b.is_absent() {
        return Ok(0);
    }
    let n = entries_in(b);
    if (b.size == 0)
        | (b.offset == 0)
        | ((n < 1) | (MOST_ENTRIES < n))
        | (u64::from(b.size) != size_of_entries(n))
        | ranges::past(image.len() as u64, b.range())
    {
        return Err(Rule::HashBlockWrong);
    }
    let Some(own) = next_entry(image, b, i, 0) else {
        return Err(Rule::HashBlockWrong);
    };
    if next_entry(image, b, i, own + 1).is_some() {
        return Err(Rule::HashBlockWrong);
    }
    Ok(entry_at(b, own))
}
