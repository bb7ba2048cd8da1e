//! Tests of merges over disks in memory: a step, passes and deep merges of lists beside plain merges of them, each with faults and what
//! they leave, and what passes have written, settled by a deep merge.
#![tactic(auto)]

#[cfg(test)]
mod asserts;
#[cfg(test)]
mod deep;
#[cfg(test)]
mod helpers;
#[cfg(test)]
mod pass;
#[cfg(test)]
mod plain;
#[cfg(test)]
mod step;
#[cfg(test)]
mod trip;
