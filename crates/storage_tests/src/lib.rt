//! Tests of the disks in memory and of what is written on a disk behind gates (the log, the catalogue, a store's file), by their
//! public calls. One crate holds them, so that the crates that they try are proved once each.
#![tactic(auto)]

#[cfg(test)]
mod asserts;
#[cfg(test)]
mod catalogues;
#[cfg(test)]
mod disks;
#[cfg(test)]
mod gates;
#[cfg(test)]
mod lanes;
#[cfg(test)]
mod samples;
#[cfg(test)]
mod stores;
