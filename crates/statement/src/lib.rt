//! A month's lines as bytes, and bytes as a month's lines.

#![tactic(auto)]

mod fault;
mod form;
mod parts;
mod reading;
mod writing;

pub use fault::StatementFault;
pub use form::MOST_BYTES;
pub use reading::read;
pub use writing::write;
