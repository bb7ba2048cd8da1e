//! What a disk holds, what a crash may leave of it, and which of its calls fail.
use crate::chunks::Chunks;
use refusal::Failed;
use std::alloc::{AllocError, Global};

// A write that no sync has settled.
#[derive(Drop)]
struct Pending {
    at: u64,
    bytes: Vec<u8>,
}

// Bytes that change by themselves before a call.
#[derive(Drop)]
struct Change {
    call: u64,
    at: u64,
    bytes: Vec<u8>,
}

/// The bytes as they read, those that the last sync settled, and the writes since then, the oldest first.
#[derive(Drop)]
pub struct Content {
    alloc: Global,
    length: u64,
    now: Chunks,
    settled: Chunks,
    pending: Vec<Pending>,
    // The call that fails, and the last one that ends well, counted from 1.
    fails: u64,
    last: u64,
    changes: Vec<Change>,
}

// How a write stands in an image.
enum Left {
    Whole,
    Torn,
    Nothing,
}

// How the write at a place stands in the image of a number, where so many writes are pending. The first images have those writes that come
// before a place; the next ones have one write alone; and in the last ones a write is torn behind those before it.
fn left_in_image(number: usize, place: usize, count: usize) -> Left {
    if number <= count {
        return if place < number {
            Left::Whole
        } else {
            Left::Nothing
        };
    }
    let alone = number.saturating_sub(count).saturating_sub(1);
    if alone < count {
        return if place == alone {
            Left::Whole
        } else {
            Left::Nothing
        };
    }
    let torn = alone.saturating_sub(count);
    if place < torn {
        Left::Whole
    } else if place == torn {
        Left::Torn
    } else {
        Left::Nothing
    }
}

// Half of the bytes, and another one behind them.
fn half_of(alloc: Global, bytes: &[u8]) -> Result<Vec<u8>, AllocError> {
    let (front, rest) = bytes.split_at(bytes.len() / 2);
    let mut piece = front.to_vec(alloc)?;
    if let Some(next) = rest.first() {
        piece.push(*next ^ 0x5a)?;
    }
    Ok(piece)
}

impl Content {
    pub fn new(alloc: Global) -> Content {
        Content {
            alloc,
            length: 0,
            now: Chunks::new(alloc),
            settled: Chunks::new(alloc),
            pending: Vec::new(alloc),
            fails: 0,
            last: u64::MAX,
            changes: Vec::new(alloc),
        }
    }

    /// A call of this number, counted from 1, fails.
    pub fn fail(&mut self, call: u64) {
        self.fails = call;
    }

    /// A call of this number, counted from 1, and each one behind it fails.
    pub fn stop(&mut self, call: u64) {
        self.last = call.saturating_sub(1);
    }

    /// These bytes stand at a place from the call of this number on, counted from 1.
    pub fn change(&mut self, call: u64, at: u64, bytes: Vec<u8>) -> Result<(), AllocError> {
        self.changes.push(Change { call, at, bytes })?;
        Ok(())
    }

    // What changes by itself before a call.
    fn make_changes(&mut self, call: u64) -> Result<(), AllocError> {
        for change in &self.changes {
            if change.call == call {
                self.now.write(change.at, &change.bytes)?;
            }
        }
        Ok(())
    }

    // The call behind so many others.
    fn call(&mut self, calls: u64) -> Result<(), Failed> {
        let number = calls.saturating_add(1);
        if number == self.fails || number > self.last || self.make_changes(number).is_err() {
            return Err(Failed);
        }
        Ok(())
    }

    pub fn len(&mut self, calls: u64) -> Result<u64, Failed> {
        self.call(calls)?;
        Ok(self.length)
    }

    pub fn read(&mut self, calls: u64, at: u64, into: &mut [u8]) -> Result<(), Failed> {
        self.call(calls)?;
        if at.saturating_add(into.len() as u64) > self.length {
            return Err(Failed);
        }
        self.now.read(at, into);
        Ok(())
    }

    // Notes a write that no sync has settled.
    fn note(&mut self, at: u64, from: &[u8]) -> Result<(), AllocError> {
        let bytes = from.to_vec(self.alloc)?;
        self.pending.push(Pending { at, bytes })?;
        Ok(())
    }

    /// A write that fails may be in an image.
    pub fn write(&mut self, calls: u64, at: u64, from: &[u8]) -> Result<(), Failed> {
        if at > self.length || self.note(at, from).is_err() {
            return Err(Failed);
        }
        self.call(calls)?;
        if self.now.write(at, from).is_err() {
            return Err(Failed);
        }
        self.length = self.length.max(at.saturating_add(from.len() as u64));
        Ok(())
    }

    // What was written is settled, as it reads.
    fn settle(&mut self) -> Result<(), AllocError> {
        for write in &self.pending {
            let count = write.bytes.len() as u64;
            self.settled.take_over(&self.now, write.at, count)?;
        }
        self.pending.clear();
        Ok(())
    }

    pub fn sync(&mut self, calls: u64) -> Result<(), Failed> {
        self.call(calls)?;
        match self.settle() {
            Ok(()) => Ok(()),
            Err(_) => Err(Failed),
        }
    }

    /// Leaves out the last byte.
    pub fn cut(&mut self) {
        self.length = self.length.saturating_sub(1);
    }

    /// How many images there are.
    pub fn images(&self) -> usize {
        self.pending.len().saturating_mul(3).saturating_add(1)
    }

    // The bytes that a crash may leave, by the number of the image.
    fn left_by(&self, number: usize) -> Result<Chunks, AllocError> {
        let mut bytes = self.settled.copied()?;
        let count = self.pending.len();
        for (place, write) in self.pending.iter().enumerate() {
            match left_in_image(number, place, count) {
                Left::Whole => bytes.write(write.at, &write.bytes)?,
                Left::Torn => bytes.write(write.at, &half_of(self.alloc, &write.bytes)?)?,
                Left::Nothing => {}
            }
        }
        Ok(bytes)
    }

    // These bytes, as the content of a disk without a call.
    fn with(&self, bytes: Chunks) -> Result<Content, AllocError> {
        let mut content = Content::new(self.alloc);
        content.length = self.length;
        content.settled = bytes.copied()?;
        content.now = bytes;
        Ok(content)
    }

    /// What a crash may leave, by its number.
    pub fn image(&self, number: usize) -> Result<Content, AllocError> {
        self.with(self.left_by(number)?)
    }

    /// The content as it reads.
    pub fn copied(&self) -> Result<Content, AllocError> {
        self.with(self.now.copied()?)
    }
}
