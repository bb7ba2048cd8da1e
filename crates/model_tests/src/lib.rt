//! Tests of the words of all and of texts, by their public calls. One crate holds them, so that the crates that they try are proved
//! once each.
#![tactic(auto)]

#[cfg(test)]
mod asserts;
#[cfg(test)]
mod geometries;
#[cfg(test)]
mod model;
#[cfg(test)]
mod packs;
#[cfg(test)]
mod samples;
#[cfg(test)]
mod scripts;
#[cfg(test)]
mod ships;
#[cfg(test)]
mod streams;
#[cfg(test)]
mod trials;
