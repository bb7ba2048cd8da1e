//! Tests of the core of the tree over disks in memory: writes and what they cost, merges and holds, schedules of many seats beside a plain
//! map, a plain store, sums of weights and stored lines, stops at each call of the disk with what their images hold, pages that turn to
//! zeros, and passes whose finished pages are read in place of what left the memory table.
#![tactic(auto)]

#[cfg(test)]
mod asserts;
#[cfg(test)]
mod damage;
#[cfg(test)]
mod holds;
#[cfg(test)]
mod lines;
#[cfg(test)]
mod maps;
#[cfg(test)]
mod merges;
#[cfg(test)]
mod plays;
#[cfg(test)]
mod releases;
#[cfg(test)]
mod samples;
#[cfg(test)]
mod schedules;
#[cfg(test)]
mod stops;
#[cfg(test)]
mod stores;
#[cfg(test)]
mod told;
#[cfg(test)]
mod weights;
#[cfg(test)]
mod writes;
