//! A year of calls with all their answers, and a year without awards.

#![tactic(auto)]

#[cfg(test)]
mod answers;
#[cfg(test)]
mod buyers;
#[cfg(test)]
mod january;
#[cfg(test)]
mod metered;
#[cfg(test)]
mod tests;
#[cfg(test)]
mod year;
