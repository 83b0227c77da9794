//! Tests of the public calls that read, write and copy texts: scripts, generated scripts, histories and
//! decimal numbers.
#![tactic(auto)]

#[cfg(test)]
mod copies;
#[cfg(test)]
mod generated;
#[cfg(test)]
mod histories;
#[cfg(test)]
mod numbers;
#[cfg(test)]
mod scripts;
