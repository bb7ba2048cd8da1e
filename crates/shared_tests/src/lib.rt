//! Tests of callers and workers in threads of their own, over a store on a disk in memory.
#![tactic(auto)]

#[cfg(test)]
mod asserts;
#[cfg(test)]
mod contests;
#[cfg(test)]
mod judge;
#[cfg(test)]
mod random;
#[cfg(test)]
mod stops;
#[cfg(test)]
mod stores;
#[cfg(test)]
mod threads;
