// Rule 10, the chain of the partition headers: it finds the headers' byte offsets. Later stages are lent the chain and read a header where
// it lies.
#![tactic(auto)]

mod chain;
mod follow;

pub use chain::Chain;
pub use follow::check_chain;
