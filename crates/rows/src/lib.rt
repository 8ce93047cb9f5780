// What is stated of an accepted image: the billed bytes, and the row buffer with its head and rows.
#![tactic(auto)]

mod accepted;
mod bill;
mod buffer;

pub use accepted::Accepted;
pub use bill::billed;
pub use buffer::{BUFFER, HEAD, ROW};
