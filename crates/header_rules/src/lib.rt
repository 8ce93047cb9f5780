// Rules 11 to 16, of each partition header alone.
#![tactic(auto)]

mod conditions;
mod stage;

pub use stage::check_headers;
