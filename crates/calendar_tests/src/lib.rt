//! Fillings of a calendar at their limits, and the readings of a month's stress hours against one another.

#![tactic(auto)]

#[cfg(test)]
mod tests;
