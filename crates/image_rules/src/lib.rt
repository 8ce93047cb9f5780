// Rule 20, the image headers: the runs of the chain that images own, and the owner image of a partition.
#![tactic(auto)]

mod image_headers;
mod owners;
mod runs;

pub use image_headers::ImageHeaders;
pub use owners::owner_of;
pub use runs::check_images;
