//! Worked months of metering, and a kind of facility that the library does not know.

#![tactic(auto)]

#[cfg(test)]
mod tests;
