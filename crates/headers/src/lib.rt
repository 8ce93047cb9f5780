// The table, an image header, a partition header, the boot header, a hash block and its entries: sizes, offsets, by-value readings and the
// ranges that they name. What is read lies inside the image: a rule has said so before.
#![tactic(auto)]

mod block;
mod boot;
mod entry;
mod image;
mod partition;
mod table;

pub use block::Block;
pub use boot::BootHeader;
pub use entry::HashEntry;
pub use image::ImageHeader;
pub use partition::PartitionHeader;
pub use table::{HeaderSizes, TableHeader};

// Rule 6: the most images, and the most partitions.
pub const MOST_IMAGES: u32 = 32;

pub const MOST_PARTITIONS: usize = 32;
