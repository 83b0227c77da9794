//! Tests of the public calls of devices and records: trees and what they say, gates, pairs, members, halt conditions.
#![tactic(auto)]

#[cfg(test)]
mod conditions;
#[cfg(test)]
mod descriptions;
#[cfg(test)]
mod devices;
#[cfg(test)]
mod file_maps;
#[cfg(test)]
mod gates;
#[cfg(test)]
mod pairs;
#[cfg(test)]
mod parts;
#[cfg(test)]
mod records;
#[cfg(test)]
mod removals;
#[cfg(test)]
mod scans;
#[cfg(test)]
mod stores;
#[cfg(test)]
mod trees;
#[cfg(test)]
mod versions;
