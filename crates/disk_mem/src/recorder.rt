// The parts of a disk in memory: its bytes, the record of its calls, and what makes a call fail.
ghost use Rattle.std.specs.Prelude.{◌≡◌, ◌⊎◌, ◌<◌, ◌≤◌, ◌+◌, ◌*◌, ◌-◌, ◌^◌, ◌↔◌, map, false, if◌then◌else◌, IsTrue, OnOk, OnErr, IfOk, refl, List, ℕ, [], ◌∷◌, ◌++◌, length, is_ok, vec_len, vec_capacity};
ghost use Rattle.disk_trait.specs.Disk.{part, overwritten};
ghost use Rattle.disk_mem.specs.Events.{passed};
ghost use Rattle.disk_mem.specs.Calls.{written_len, events, event, taken};
ghost use Rattle.disk_mem.specs.Changes.{change_of};
ghost use Rattle.disk_mem.specs.Recorded.{record_size};
ghost use Rattle.disk_mem.specs.Replayed.{IsReplayed};

use crate::bytes::overwrite;
use crate::call::Call;
use crate::image::image_of;
use crate::poke::{Poke, poke_bytes};
use refusal::{Failed, NoMemory, raise};
use std::alloc::Global;

/// How many bytes of its record a call takes, beside those that it writes.
const CALL_BYTES: u64 = 16;

#[derive(Drop)]
pub(crate) struct Recorder {
    alloc: Global,
    // What it began with, and what it reads as.
    first: Vec<u8>,
    bytes: Vec<u8>,
    // The record of its calls, with the bytes of the writes among them, how many bytes of it are left, and how many calls came past it.
    calls: Vec<Call>,
    written: Vec<u8>,
    kept: u64,
    left: u64,
    past: u64,
    limit: u64,
    fails: Vec<u64>,
    stop: u64,
    pokes: Vec<Poke>,
    faults: u64,
    ghost room: { limit ≤ vec_capacity bytes },
    ghost call_room: { kept < 16 * (vec_capacity calls + 1) },
    ghost written_room: { kept ≤ vec_capacity written },
    ghost counted: { written_len calls.items ≡ length written.items },
    ghost size: { record_size (events calls.items written.items) + left ≡ kept },
    ghost past_fits: { past < 2 ^ 64 },
    ghost faults_fit: { faults < 2 ^ 64 },
    ghost replayed: { IsReplayed first.items (events calls.items written.items) (map change_of pokes.items) bytes.items },
}

// Adds a call to the record, with the bytes of its write.
fn keep(calls: &mut Vec<Call>, written: &mut Vec<u8>, call: Call, text: &[u8])
    requires room { vec_len calls.old < vec_capacity calls.old }
    requires space { vec_len written.old + length text.now ≤ vec_capacity written.old }
    requires owns { taken call ≡ length text.now }
    requires counted { written_len calls.old.items ≡ length written.old.items }
    ensures counted { written_len calls.new.items ≡ length written.new.items }
    ensures events { events calls.new.items written.new.items ≡ events calls.old.items written.old.items ++ event call text.now ∷ [] }
    ensures call_room { vec_capacity calls.old ≤ vec_capacity calls.new }
    ensures written_room { vec_capacity written.old ≤ vec_capacity written.new }
{
    let _ = calls.push(call);
    let _ = written.extend_from_slice(text);
}

impl Recorder {
    ghost use Rattle.disk_mem.specs.Recorder.{recorded};
    ghost use Rattle.disk_mem.specs.Recorded.{new_disk, IsListed, HasRecord, HasNoRecord, next_call, at_call, noting, missing, faulting, doing, look, sync_call, write_call, Outcome};
    ghost use Rattle.disk_mem.specs.Calls.{IsLook, IsNoWrite};
    ghost use Rattle.disk_mem.specs.Events.{wrote};

    /// A disk that begins with these bytes.
    pub(crate) fn new(
        alloc: Global,
        image: &[u8],
        limit: u64,
        kept: u64,
    ) -> Result<Recorder, NoMemory>
        ensures { IfOk result (λ d. recorded d ≡ new_disk image.now limit kept) }
    {
        let mut bytes = Vec::with_capacity(alloc, limit as usize)?;
        bytes.extend_from_slice(image)?;
        Ok(Recorder {
            alloc,
            first: image.to_vec(alloc)?,
            bytes,
            calls: Vec::with_capacity(alloc, (kept / CALL_BYTES) as usize)?,
            written: Vec::with_capacity(alloc, kept as usize)?,
            kept,
            left: kept,
            past: 0,
            limit,
            fails: Vec::new(alloc),
            stop: u64::MAX,
            pokes: Vec::new(alloc),
            faults: 0,
        })
    }

    // The number of the next call.
    fn number(&self) -> u64
        ensures { result ≡ next_call (recorded self.now) }
    {
        (self.calls.len() as u64)
            .saturating_add(self.past)
            .saturating_add(1)
    }

    fn is_listed(&self) -> bool
        ensures listed { IsTrue result → IsListed (recorded self.now) }
        ensures not_listed { result ≡ false → ¬ IsListed (recorded self.now) }
    {
        let number = self.number();
        if self.fails.contains(&number) {
            return true;
        }
        self.stop < number
    }

    // Whether the record has room for one call more that writes so many bytes.
    fn has_record(&self, size: usize) -> bool
        ensures yes { IsTrue result → HasRecord size (recorded self.now) }
        ensures no { result ≡ false → HasNoRecord size (recorded self.now) }
    {
        if self.past > 0 || self.left < CALL_BYTES {
            return false;
        }
        size as u64 <= self.left - CALL_BYTES
    }

    // Whether the range lies within the bytes.
    fn holds(&self, at: u64, len: usize) -> bool
        ensures yes { IsTrue result → at + len ≤ length (recorded self.now).bytes }
        ensures no { result ≡ false → length (recorded self.now).bytes < at + len }
    {
        let place = at as usize;
        place <= self.bytes.len() && len <= self.bytes.len() - place
    }

    // Changes the bytes as the pokes before the next call say.
    fn poke_now(&mut self)
        ensures changed { recorded self.new ≡ at_call (recorded self.old) }
        ensures len { length (recorded self.new).bytes ≡ length (recorded self.old).bytes }
    {
        let number = self.number();
        poke_bytes(&mut self.bytes, &self.pokes, number);
    }

    fn miss(&mut self)
        ensures { recorded self.new ≡ missing (recorded self.old) }
    {
        self.past = self.past.saturating_add(1);
    }

    fn count_fault(&mut self)
        ensures { recorded self.new ≡ faulting (recorded self.old) }
    {
        self.faults = self.faults.saturating_add(1);
    }

    // Notes a call that changes no bytes.
    fn note(&mut self, call: Call, text: &[u8])
        requires room { HasRecord (length text.now) (recorded self.old) }
        requires owns { taken call ≡ length text.now }
        requires no_write { IsNoWrite call }
        ensures { recorded self.new ≡ noting (event call text.now) (recorded self.old) }
    {
        keep(&mut self.calls, &mut self.written, call, text);
        self.left -= CALL_BYTES + text.len() as u64;
    }

    // Writes, and notes it.
    fn note_write(&mut self, at: u64, from: &[u8])
        requires room { HasRecord (length from.now) (recorded self.old) }
        requires inside { at ≤ length (recorded self.old).bytes }
        requires limit { at + length from.now ≤ self.old.limit }
        ensures { recorded self.new ≡ doing (wrote at from.now) (recorded self.old) }
    {
        let _ = overwrite(&mut self.bytes, at as usize, from);
        let call = Call::Wrote(at, from.len());
        keep(&mut self.calls, &mut self.written, call, from);
        self.left -= CALL_BYTES + from.len() as u64;
    }
}

// Crash images, and what is set beforehand.
impl Recorder {
    ghost use Rattle.disk_mem.specs.Events.{replay, fresh, IsImage};
    ghost use Rattle.disk_mem.specs.Images.{IsPicked};
    ghost use Rattle.disk_mem.specs.Recorded.{is_untouched, new_disk};
    ghost use Rattle.disk_mem.specs.Recorder.{recorded};

    /// A disk that holds the image which the number picks of those that a crash now may leave.
    pub(crate) fn image(&self, pick: u64) -> Result<Recorder, NoMemory>
        ensures made { IfOk result (λ d. recorded d ≡ new_disk (recorded d).bytes self.now.limit self.now.kept) }
        ensures image { IfOk result (λ d. IsTrue (is_untouched (recorded self.now).changes)
            → IsImage (replay (fresh (recorded self.now).first) (recorded self.now).events) (recorded d).bytes) }
        ensures picked { IfOk result (λ d. IsPicked pick (recorded self.now) (recorded d).bytes) }
    {
        let image = image_of(
            self.alloc,
            &self.first,
            &self.calls,
            &self.written,
            &self.pokes,
            pick,
        )?;
        Recorder::new(self.alloc, &image, self.limit, self.kept)
    }

    pub(crate) fn fail(&mut self, call: u64) -> Result<(), NoMemory>
        ensures ok { OnOk result (recorded self.new ≡ record (recorded self.old) { fails = (recorded self.old).fails ++ call ∷ [] }) }
        ensures err { OnErr result (recorded self.new ≡ recorded self.old) }
    {
        self.fails.push(call)?;
        Ok(())
    }

    pub(crate) fn stop_after(&mut self, call: u64)
        ensures { recorded self.new ≡ record (recorded self.old) { stop = call } }
    {
        self.stop = call;
    }

    pub(crate) fn poke(&mut self, call: u64, at: u64, bytes: &[u8]) -> Result<(), NoMemory>
        ensures ok { OnOk result (recorded self.new ≡ record (recorded self.old) {
          changes = (recorded self.old).changes
              ++ record { call = call; at = at; bytes = bytes.now } ∷ [];
        }) }
        ensures err { OnErr result (recorded self.new ≡ recorded self.old) }
    {
        let bytes = bytes.to_vec(self.alloc)?;
        self.pokes.push(Poke { call, at, bytes })?;
        Ok(())
    }
}

// The calls of the disk.
impl Recorder {
    ghost use Rattle.disk_mem.specs.Recorder.{recorded};
    ghost use Rattle.disk_mem.specs.Recorded.{look, look_or_sync, sync_call, write_call, Outcome};
    ghost use Rattle.disk_mem.specs.Calls.{IsLook};

    // A call that looks at a range of the bytes or syncs them.
    fn pass(&mut self, at: u64, len: usize, done: Call) -> Result<(), Failed>
        requires { IsLook done }
        ensures fits { OnOk result (at + len ≤ length (recorded self.new).bytes) }
        ensures outcome { Outcome (look_or_sync (at + len) (event done [])) (recorded self.old) (recorded self.new) (is_ok result) }
    {
        let is_listed = self.is_listed();
        let has_record = self.has_record(0);
        let in_range = self.holds(at, len);
        self.poke_now();
        if !has_record {
            self.miss();
            if in_range {
                self.count_fault();
            }
            return Err(Failed);
        }
        if !in_range {
            self.note(Call::Passed, &[]);
            return Err(Failed);
        }
        if is_listed {
            self.note(Call::Passed, &[]);
            self.count_fault();
            return Err(Failed);
        }
        self.note(done, &[]);
        Ok(())
    }

    pub(crate) fn len(&mut self) -> Result<u64, Failed>
        ensures outcome { Outcome (look 0) (recorded self.old) (recorded self.new) (is_ok result) }
        ensures length { IfOk result (λ n. n ≡ length (recorded self.new).bytes) }
    {
        self.pass(0, 0, Call::Passed)?;
        Ok(self.bytes.len() as u64)
    }

    pub(crate) fn read(&mut self, at: u64, into: &mut [u8]) -> Result<(), Failed>
        ensures outcome { Outcome (look (at + length into.old)) (recorded self.old) (recorded self.new) (is_ok result) }
        ensures bytes { OnOk result (into.new ≡ part (recorded self.new).bytes at (length into.old)) }
    {
        self.pass(at, into.len(), Call::Passed)?;
        let place = at as usize;
        into.copy_from_slice(&self.bytes[place..place + into.len()]);
        Ok(())
    }

    pub(crate) fn sync(&mut self) -> Result<(), Failed>
        ensures { Outcome sync_call (recorded self.old) (recorded self.new) (is_ok result) }
    {
        self.pass(0, 0, Call::Synced)
    }

    pub(crate) fn write(&mut self, at: u64, from: &[u8]) -> Result<(), Failed>
        ensures { Outcome (write_call at from.now) (recorded self.old) (recorded self.new) (is_ok result) }
    {
        let is_listed = self.is_listed();
        let has_record = self.has_record(from.len());
        let in_range = self.holds(at, 0);
        let in_limit = at <= self.limit && from.len() as u64 <= self.limit - at;
        self.poke_now();
        if !has_record {
            self.miss();
            if in_range {
                self.count_fault();
            }
            return Err(Failed);
        }
        if !in_range {
            self.note(Call::Passed, &[]);
            return Err(Failed);
        }
        if is_listed || !in_limit {
            self.note(Call::Tore(at, from.len()), from);
            self.count_fault();
            return Err(Failed);
        }
        self.note_write(at, from);
        Ok(())
    }

    /// The same disk with its count of faults at 0.
    pub(crate) fn without_faults(self) -> Recorder
        ensures { recorded result ≡ record (recorded self) { faults = 0 } }
    {
        let mut recorder = self;
        recorder.faults = 0;
        recorder
    }

    pub(crate) fn faults(&self) -> u64
        ensures { result ≡ (recorded self.now).faults }
    {
        self.faults
    }
}
