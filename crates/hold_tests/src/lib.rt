//! Tests of holds over components on disks in memory.
#![tactic(auto)]

#[cfg(test)]
mod asserts;
#[cfg(test)]
mod holds;
#[cfg(test)]
mod scans;
#[cfg(test)]
mod store;
