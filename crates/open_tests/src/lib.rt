//! Tests of making a store and of opening one, over disks in memory: what an opening leaves of a store and of its map, how few pages gets read
//! then, damage by its place, faults, and stops at each call of the disk with what their images hold.
#![tactic(auto)]

#[cfg(test)]
mod asserts;
#[cfg(test)]
mod damage;
#[cfg(test)]
mod depths;
#[cfg(test)]
mod faults;
#[cfg(test)]
mod lanes;
#[cfg(test)]
mod lookups;
#[cfg(test)]
mod making;
#[cfg(test)]
mod maps;
#[cfg(test)]
mod opening;
#[cfg(test)]
mod pages;
#[cfg(test)]
mod rich;
#[cfg(test)]
mod samples;
#[cfg(test)]
mod stops;
#[cfg(test)]
mod stores;
