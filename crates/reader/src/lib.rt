// Read, bill and body, the three questions of document 01, and owner, of document 02, over the core.
#![tactic(auto)]

mod billing;
mod bodies;
mod owners;
mod reading;

pub use billing::bill;
pub use bodies::body;
pub use owners::owner;
pub use reading::read;
