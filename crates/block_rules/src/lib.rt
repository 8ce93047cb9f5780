// Rule 17, of the hash blocks: the table's own and each partition's. The stage also hands on where each partition's own entry lies.
#![tactic(auto)]

mod entries;
mod stage;

pub use stage::check_blocks;
