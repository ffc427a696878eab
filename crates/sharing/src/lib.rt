//! How a month's total is shared among the buyers: their rows, what any sharing rule keeps, and the built-in rules.

#![tactic(auto)]

mod cut;
mod fault;
mod remainder;
mod rows;
mod rule;
mod running;
mod split;
mod weighed;

pub use fault::SharingFault;
pub use remainder::Remainder;
pub use rows::{Row, total_mwh};
pub use rule::{MOST_ROWS, SharingRule};
pub use running::Running;
pub use split::RunningSplit;
