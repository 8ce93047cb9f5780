// Rules 3 to 9, of the table, the boot header and the image headers.
#![tactic(auto)]

mod conditions;
mod stage;

pub use stage::check_table;
