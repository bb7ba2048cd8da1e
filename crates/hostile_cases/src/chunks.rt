//! Bytes in chunks, of which those that are all zeros take no memory.
use std::alloc::{AllocError, Global};

// How many bytes a chunk has.
const CHUNK: u64 = 4_096;

/// Bytes from offset 0 on: behind the chunks, and in those without bytes, there are zeros.
#[derive(Drop)]
pub struct Chunks {
    alloc: Global,
    chunks: Vec<Vec<u8>>,
}

/// Copies as many bytes as there are on both sides.
fn copy(into: &mut [u8], from: &[u8]) {
    let count = into.len().min(from.len());
    into[..count].copy_from_slice(&from[..count]);
}

// The part of a range that lies in a chunk: how far behind the chunk's beginning it begins, and where it begins and ends in the range.
fn overlap(chunk: u64, at: u64, count: u64) -> (usize, usize, usize) {
    let start = chunk.saturating_mul(CHUNK);
    let begin = start.max(at);
    let end = start.saturating_add(CHUNK).min(at.saturating_add(count));
    (
        begin.saturating_sub(start) as usize,
        begin.saturating_sub(at) as usize,
        end.saturating_sub(at) as usize,
    )
}

// The numbers of the chunks from the first one that a range meets on, without the last.
fn met(at: u64, count: u64) -> (u64, u64) {
    let end = at.saturating_add(count).saturating_add(CHUNK - 1);
    (at / CHUNK, end / CHUNK)
}

fn is_zero(bytes: &[u8]) -> bool {
    bytes.iter().all(|byte| *byte == 0)
}

impl Chunks {
    pub fn new(alloc: Global) -> Chunks {
        Chunks {
            alloc,
            chunks: Vec::new(alloc),
        }
    }

    // Makes as many chunks as there are up to this one.
    fn reach(&mut self, chunk: u64) -> Result<(), AllocError> {
        let count = self.chunks.len() as u64;
        for _ in count..chunk.saturating_add(1) {
            self.chunks.push(Vec::new(self.alloc))?;
        }
        Ok(())
    }

    // Writes bytes into a chunk, so many bytes behind its beginning.
    fn put(&mut self, chunk: u64, skip: usize, bytes: &[u8]) -> Result<(), AllocError> {
        self.reach(chunk)?;
        let Some(place) = self.chunks.get_mut(chunk as usize) else {
            return Ok(());
        };
        if place.is_empty() {
            if is_zero(bytes) {
                return Ok(());
            }
            *place = vec![in self.alloc; 0u8; CHUNK as usize]?;
        }
        if skip <= place.len() {
            copy(&mut place[skip..], bytes);
        }
        Ok(())
    }

    /// Writes bytes from an offset on.
    pub fn write(&mut self, at: u64, from: &[u8]) -> Result<(), AllocError> {
        let count = from.len() as u64;
        let (first, end) = met(at, count);
        for chunk in first..end {
            let (skip, begin, stop) = overlap(chunk, at, count);
            if let Some(part) = from.get(begin..stop) {
                self.put(chunk, skip, part)?;
            }
        }
        Ok(())
    }

    // The bytes of a chunk from so many behind its beginning on, or none for zeros.
    fn rest_of(&self, chunk: u64, skip: usize) -> &[u8] {
        match self.chunks.get(chunk as usize) {
            Some(bytes) => bytes.get(skip..).unwrap_or(&[]),
            None => &[],
        }
    }

    /// Fills the slice with the bytes from an offset on.
    pub fn read(&self, at: u64, into: &mut [u8]) {
        let count = into.len() as u64;
        let (first, end) = met(at, count);
        into.fill(0);
        for chunk in first..end {
            let (skip, begin, stop) = overlap(chunk, at, count);
            if begin <= stop && stop <= into.len() {
                copy(&mut into[begin..stop], self.rest_of(chunk, skip));
            }
        }
    }

    /// Takes over what other bytes have in the chunks that a range meets.
    pub fn take_over(&mut self, from: &Chunks, at: u64, count: u64) -> Result<(), AllocError> {
        let (first, end) = met(at, count);
        for chunk in first..end {
            self.reach(chunk)?;
            let bytes = from.rest_of(chunk, 0).to_vec(self.alloc)?;
            if let Some(place) = self.chunks.get_mut(chunk as usize) {
                *place = bytes;
            }
        }
        Ok(())
    }

    /// The same bytes once more.
    pub fn copied(&self) -> Result<Chunks, AllocError> {
        let mut chunks = Vec::new(self.alloc);
        for bytes in &self.chunks {
            chunks.push(bytes.to_vec(self.alloc)?)?;
        }
        Ok(Chunks {
            alloc: self.alloc,
            chunks,
        })
    }
}
