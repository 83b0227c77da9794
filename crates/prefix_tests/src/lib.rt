//! Tests of the prefix's public calls: the folders of flushed datasets, the index, and its mark.
#![tactic(auto)]

#[cfg(test)]
mod adding;
#[cfg(test)]
mod dropping;
#[cfg(test)]
mod folders;
#[cfg(test)]
mod listing;
#[cfg(test)]
mod marks;
#[cfg(test)]
mod samples;
#[cfg(test)]
mod storing;
