//! Tests of pages and sorted runs, by their public calls, over disks in memory; and of runs from the writer to the cursor. One
//! crate holds them, so that the crates that they try are proved once each.
#![tactic(auto)]

#[cfg(test)]
mod asserts;
#[cfg(test)]
mod cursors;
#[cfg(test)]
mod drafts;
#[cfg(test)]
mod filters;
#[cfg(test)]
mod fronts;
#[cfg(test)]
mod pages;
#[cfg(test)]
mod samples;
#[cfg(test)]
mod trips;
#[cfg(test)]
mod writers;
