//! Tests of the two boards that threads read without waiting.
#![tactic(auto)]

#[cfg(test)]
mod replies;
#[cfg(test)]
mod statuses;
