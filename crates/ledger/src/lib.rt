//! The ledger of one delivery year.

#![tactic(auto)]

mod advancing;
mod amounts;
mod awarding;
mod booking;
mod ceding;
mod claiming;
mod closing;
mod course;
mod cutting;
mod fault;
mod holdings;
mod kept;
mod lines;
mod making;
mod money;
mod numbers;
mod opening;
mod penalty;
mod readings;
mod refusal;
mod registering;
mod reporting;
mod rights;
mod settling;
mod state;
mod switching;
mod upholding;

pub use calendar::MONTHS;
pub use fault::LedgerFault;
pub use kept::Ledger;
pub use refusal::Refusal;
pub use registering::{MOST_MODULES, Module};
pub use state::{Line, MOST_AWARDS, MOST_FACILITIES, Phase, Stage};
