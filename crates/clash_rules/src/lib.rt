// Rules 18 and 19: stored ranges that clash, and load ranges that clash.
#![tactic(auto)]

mod loads;
mod stored;

pub use loads::check_loads;
pub use stored::check_stored;
