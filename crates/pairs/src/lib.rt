// Lists of ranges: whether some two clash, of one list or of two.
#![tactic(auto)]

mod compare;
mod order;

pub use compare::{any_block_clash, any_clash};
use headers::MOST_PARTITIONS;

// The most ranges that rule 18 compares: the boot header, the table, the image headers, and the headers and spans of all partitions.
pub const MOST_RANGES: usize = 3 + 2 * MOST_PARTITIONS;
