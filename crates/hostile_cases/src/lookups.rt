//! What is found in a store once it is opened again.
use crate::bench::Bench;
use crate::departure::Departure;
use crate::disk::PageDisk;
use blsm_model::{Key, Value, Write, value_of};
use blsm_run::Status;
use std::alloc::{AllocError, Global};
use std::sync::Wait;
use std::thread::Threads;

/// Keys that are looked up, and what is found of them: the script of the lookups, and its lines in the history.
#[derive(Drop)]
pub struct Map {
    script: String,
    lines: String,
}

/// The bytes of a text, or a dash for none.
pub fn shown(bytes: &[u8]) -> &str {
    match str::from_utf8(bytes) {
        Ok("") => "-",
        Ok(text) => text,
        Err(_) => "?",
    }
}

/// The reply to a lookup that finds this value.
pub fn reply_of(alloc: Global, value: &Option<Value>) -> Result<String, AllocError> {
    match value {
        Some(value) => {
            let text = shown(value.text.as_bytes());
            format!(in alloc; "is {} {text}", value.count)
        }
        None => String::from_str(alloc, "none"),
    }
}

/// The reply to a write whose condition doesn't hold where its key has this value.
pub fn kept_of(alloc: Global, value: &Option<Value>) -> Result<String, AllocError> {
    match value {
        Some(value) => {
            let text = shown(value.text.as_bytes());
            format!(in alloc; "kept {} {text}", value.count)
        }
        None => String::from_str(alloc, "kept none"),
    }
}

impl Map {
    fn new(alloc: Global) -> Map {
        Map {
            script: String::new(alloc),
            lines: String::new(alloc),
        }
    }

    // One key more, and the reply to its lookup.
    fn add(&mut self, alloc: Global, place: u64, key: &str, reply: &str) -> Result<(), AllocError> {
        let line = format!(in alloc; "1 get {key}\n")?;
        self.script.push_str(&line)?;
        let line = format!(in alloc; "{place} 1 get {key} => {reply} q0\n")?;
        self.lines.push_str(&line)?;
        Ok(())
    }

    /// One key, with the reply to its lookup.
    pub fn one(alloc: Global, key: &str, reply: &str) -> Result<Map, Departure> {
        let mut map = Map::new(alloc);
        map.add(alloc, 1, key, reply)?;
        Ok(map)
    }

    /// These keys, with what they have after the writes.
    pub fn after(alloc: Global, keys: &[Key], writes: &[Write]) -> Result<Map, Departure> {
        let mut map = Map::new(alloc);
        let mut place = 0u64;
        for key in keys {
            place = place.saturating_add(1);
            let reply = reply_of(alloc, &value_of(writes, key))?;
            map.add(alloc, place, shown(key.as_bytes()), &reply)?;
        }
        Ok(map)
    }

    // Whether a history of the lookups has its lines, behind its first and before its last one.
    fn is_told(&self, history: &str) -> bool {
        let Some((_, lines)) = history.split_once("\n") else {
            return false;
        };
        match lines.strip_prefix(self.lines.as_str()) {
            Some(end) => end.starts_with("end c0 0 of "),
            None => false,
        }
    }
}

fn is_any(maps: &[Map], history: &str) -> bool {
    maps.iter().any(|map| map.is_told(history))
}

/// An image of a disk, of this number, opens, and one of these maps, which are of the same keys, is found in it.
pub fn check_image<R: Threads + Wait + Sync>(
    rt: &R,
    alloc: Global,
    bench: &Bench,
    image: PageDisk,
    number: u64,
    maps: &[Map],
) -> Result<(), Departure> {
    let Some(first) = maps.first() else {
        return Err(Departure::NotACase);
    };
    let answer = bench.run(rt, alloc, image, &first.script)?;
    if answer.status != Status::Done || !is_any(maps, &answer.text) {
        return Err(Departure::found(alloc, "image", number, &answer.text));
    }
    Ok(())
}

/// Each image of a disk opens, and one of these maps is found in it.
pub fn check_images<R: Threads + Wait + Sync>(
    rt: &R,
    alloc: Global,
    bench: &Bench,
    disk: &PageDisk,
    maps: &[Map],
) -> Result<(), Departure> {
    for number in 0..disk.images() {
        check_image(rt, alloc, bench, disk.image(number)?, number as u64, maps)?;
    }
    Ok(())
}
