//! Tests of the built-in rules of sharing.

#![tactic(auto)]

#[cfg(test)]
mod tests;
