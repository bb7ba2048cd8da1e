// Scripts that are made by a seed, and lookups.
ghost use Rattle.std.specs.Prelude.{◌<◌};

use crate::asserts::assert_that;
use crate::stores::script;
use script_text::Script;
use std::alloc::{AllocError, Global};
use std::process::Abort;

/// Knuth's linear congruential generator.
#[derive(Drop)]
pub struct Draws(pub u64);

impl Draws {
    pub fn below(&mut self, limit: u64) -> u64
        requires { 0 < limit }
        ensures { result < limit }
    {
        self.0 = self
            .0
            .wrapping_mul(6_364_136_223_846_793_005)
            .wrapping_add(1_442_695_040_888_963_407);
        (self.0 >> 33) % limit
    }
}

/// A quarter of the longest text there is, but for a mark of three digits.
pub const LETTERS: &str =
    "abcdefghijklmnopqrstuvwxyzabcdefghijklmnopqrstuvwxyzabcdefghijklmnopqrstuvwxyzabcdefghijklmnopqrstuvwxyzabcd";

// What a put sets: a count of two, so that a swap's condition holds often, and often not, and a text that few others have.
fn any_value(alloc: Global, draws: &mut Draws) -> Result<String, AllocError> {
    let count = draws.below(2);
    let mark = 100 + draws.below(900);
    format!(in alloc; "{count} {mark}{LETTERS}{LETTERS}{LETTERS}{LETTERS}")
}

// A write of one of ten keys, k0 to k9.
fn any_write(alloc: Global, draws: &mut Draws) -> Result<String, AllocError> {
    let key = draws.below(10);
    let count = draws.below(2);
    let value = any_value(alloc, draws)?;
    match draws.below(18) {
        0..=4 => format!(in alloc; "put k{key} {value}"),
        5..=6 => format!(in alloc; "add k{key} {}", 1 + count),
        7..=8 => format!(in alloc; "tail k{key} {}/{count}", draws.below(1_000)),
        9..=11 => format!(in alloc; "del k{key}"),
        12..=14 => format!(in alloc; "new k{key} {value}"),
        _ => format!(in alloc; "swap k{key} {count} {value}"),
    }
}

// A command on these keys. A range may be empty.
fn any_command(alloc: Global, draws: &mut Draws) -> Result<String, AllocError> {
    let key = draws.below(10);
    let other = draws.below(10);
    match draws.below(24) {
        0..=1 => format!(in alloc; "get k{key}"),
        2..=3 => format!(in alloc; "hold k{key} k{other}"),
        4 => format!(in alloc; "next {}", 1 + key),
        5 => String::from_str(alloc, "drop"),
        6 => format!(in alloc; "work {}", 1 + other),
        _ => any_write(alloc, draws),
    }
}

fn add_line(alloc: Global, text: &mut String, draws: &mut Draws) -> Result<(), AllocError> {
    let caller = 1 + draws.below(16);
    let command = any_command(alloc, draws)?;
    let line = format!(in alloc; "{caller} {command}\n")?;
    text.push_str(&line)?;
    Ok(())
}

/// A script of so many lines, each of any caller.
pub fn any_script(rt: &impl Abort, alloc: Global, seed: u64, lines: u32) -> Script {
    let mut text = String::new(alloc);
    let mut draws = Draws(seed);
    for _ in 0..lines {
        assert_that(rt, add_line(alloc, &mut text, &mut draws).is_ok());
    }
    script(rt, alloc, text.as_bytes())
}

/// Caller 1 looks the ten keys up.
pub fn lookups(rt: &impl Abort, alloc: Global) -> Script {
    script(
        rt,
        alloc,
        b"1 get k0\n1 get k1\n1 get k2\n1 get k3\n1 get k4\n1 get k5\n1 get k6\n1 get k7\n1 get k8\n1 get k9\n",
    )
}
