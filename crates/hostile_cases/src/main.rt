//! Cases of failing calls, stops and damage. Each line of the input names a script, makes the store that the next ones begin with, or is a
//! case: what is done to a store on a disk in memory, and what must be answered. A case that departs is printed, and in the end how many cases
//! there were.
#![tactic(auto)]

mod alike;
mod bench;
mod calls;
mod case;
mod chunks;
mod content;
mod damage;
mod departure;
mod disk;
mod judge;
mod lookups;
mod runs;
mod scripts;
mod sessions;
mod sweeps;
mod words;

use bench::Bench;
use scripts::Scripts;
use std::io;

fn main(rt: HostRuntime) -> io::Result<()> {
    let alloc = rt.alloc();
    let mut scripts = Scripts::new(alloc);
    let mut count = 0u64;
    let Ok(mut bench) = Bench::new(&rt, alloc) else {
        return println!(rt; "no store");
    };
    for line in rt.lines(alloc) {
        let line = line?;
        if scripts::is_remark(&line) {
            continue;
        }
        if let Err(departure) = case::check(&rt, alloc, &mut bench, &mut scripts, &line) {
            println!(rt; "{line}: {departure}")?;
        }
        if scripts::is_case(&line) {
            count = count.saturating_add(1);
        }
    }
    println!(rt; "{count} cases")
}
