// The ranges that rules 18 and 19 compare, and the lists of those of rule 18, made from the table and the headers.
#![tactic(auto)]

mod lists;
mod parts;

pub use lists::{Ranges, push_parts, put_blocks, put_headers};
pub use parts::{Part, load_of};
