// Keys and values of a few bytes, and sinks.
use blsm_model::{Key, Text, Value};
use std::alloc::Global;
use std::process::Abort;
use text_io::MemSink;

pub fn key(rt: &impl Abort, bytes: &[u8]) -> Key {
    Key::from_bytes(bytes).expect(rt, "a key")
}

pub fn value(rt: &impl Abort, count: u64, text: &[u8]) -> Value {
    Value {
        count,
        text: Text::from_bytes(text).expect(rt, "a text"),
    }
}

/// A sink with room for so many bytes, of which these calls fail.
pub fn sink(rt: &impl Abort, alloc: Global, limit: u64, fails: &[u64]) -> MemSink {
    MemSink::new(alloc, limit, fails).expect(rt, "memory")
}
