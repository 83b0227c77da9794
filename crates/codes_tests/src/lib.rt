//! Tests of the codes' public calls, from the field up to claims on pieces.
#![tactic(auto)]

#[cfg(test)]
mod claims;
#[cfg(test)]
mod copies;
#[cfg(test)]
mod field;
#[cfg(test)]
mod groups;
#[cfg(test)]
mod kernels;
#[cfg(test)]
mod polynomials;
#[cfg(test)]
mod sets;
#[cfg(test)]
mod shares;
#[cfg(test)]
mod stripes;
#[cfg(test)]
mod sums;
