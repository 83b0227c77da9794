//! Tests of commits over devices in memory.
#![tactic(auto)]

#[cfg(test)]
mod claims;
#[cfg(test)]
mod steps;
