//! Tests of the fractions, marks and gears of the merges, and of the book of the seats, by their public calls. One
//! crate holds them, so that the crates that they try are proved once each.
#![tactic(auto)]

#[cfg(test)]
mod asserts;
#[cfg(test)]
mod books;
#[cfg(test)]
mod fractions;
#[cfg(test)]
mod gears;
#[cfg(test)]
mod marks;
