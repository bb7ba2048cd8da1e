// What a run left, in a line of text.
use crate::samples::number_of;
use crate::stores::File;
use blsm_model::{Annals, Component, Key, ShortReply, Totals};
use record_delta::Rec;
use std::alloc::Global;
use std::process::Abort;

/// A digest of numbers: Fowler, Noll and Vo's hash of their bytes, the greatest first.
#[derive(Drop)]
struct Digest(u64);

impl Digest {
    fn new() -> Digest {
        Digest(14_695_981_039_346_656_037)
    }

    fn add(&mut self, number: u64) {
        for byte in number.to_be_bytes() {
            self.0 = (self.0 ^ u64::from(byte)).wrapping_mul(1_099_511_628_211);
        }
    }
}

// Which reply it is, and a number of it.
fn numbers_of(reply: &ShortReply) -> [u64; 2] {
    match reply {
        ShortReply::Done => [1, 0],
        ShortReply::Is(value) => [2, value.count],
        ShortReply::Absent => [3, 0],
        ShortReply::Held => [4, 0],
        ShortReply::NoHold => [5, 0],
        ShortReply::Did(turns) => [6, u64::from(*turns)],
        ShortReply::Full(charge) => [7, *charge],
        _ => [8, 0],
    }
}

// The entry at a place: its seat, its reply and its quanta.
fn add_entry(digest: &mut Digest, annals: &Annals, place: u32) {
    if annals.len() <= place as usize {
        return;
    }
    let [reply, number] = match annals.short_reply(place) {
        Some(reply) => numbers_of(reply),
        None => [0, annals.rows(place).len() as u64],
    };
    digest.add(u64::from(annals.seat(place)));
    digest.add(reply);
    digest.add(number);
    digest.add(annals.quanta(place));
}

// A digest of a history: of each entry its seat, its reply and its quanta.
fn digest_of_history(annals: &Annals) -> u64 {
    let mut digest = Digest::new();
    for place in 0..annals.len() as u32 {
        add_entry(&mut digest, annals, place);
    }
    digest.0
}

// An entry of a component: its key's number, its kind and its count.
fn add_record(digest: &mut Digest, key: &Key, rec: &Rec) {
    let [kind, count] = match rec {
        Rec::Base(value) => [1, value.count],
        Rec::Delta(change) => [2, change.count.amount()],
        Rec::Tomb => [3, 0],
    };
    digest.add(number_of(key) as u64);
    digest.add(kind);
    digest.add(count);
}

// A component: how many entries it has, what they weigh, and a digest of them.
fn component_text(
    rt: &impl Abort,
    alloc: Global,
    file: &mut File,
    component: &Component,
) -> String {
    let mut digest = Digest::new();
    for (key, rec) in &file.entries(rt, alloc, component) {
        add_record(&mut digest, key, rec);
    }
    let (entries, weight, digest) = (component.entries, component.weight, digest.0);
    format!(in alloc; "{entries} {weight} {digest:x}").expect(rt, "memory")
}

// The history and what it cost.
fn history_text(rt: &impl Abort, alloc: Global, annals: &Annals, totals: &Totals) -> String {
    let (entries, digest) = (annals.len(), digest_of_history(annals));
    let (peak, charge) = (totals.peak, totals.charge);
    format!(in alloc; "{entries} {digest:x}, {peak} {charge}").expect(rt, "memory")
}

// The quanta of callers and of workers, and the swaps.
fn merges_text(rt: &impl Abort, alloc: Global, totals: &Totals) -> String {
    let (callers, workers) = (totals.callers, totals.workers);
    let (passes, deeps) = (totals.passes, totals.deeps);
    format!(in alloc; "{callers} {workers}, {passes} {deeps}").expect(rt, "memory")
}

// The catalogue's version and lanes.
fn lanes_text(rt: &impl Abort, alloc: Global, file: &mut File) -> String {
    let catalogue = file.newest(rt);
    let [a, b, spare] = catalogue.lanes;
    let version = catalogue.version;
    format!(in alloc; "{version} {a} {b} {spare}").expect(rt, "memory")
}

// C1, C1' and C2.
fn components_text(rt: &impl Abort, alloc: Global, file: &mut File) -> String {
    let catalogue = file.newest(rt);
    let c1 = component_text(rt, alloc, file, &catalogue.c1);
    let c1x = component_text(rt, alloc, file, &catalogue.c1x);
    let c2 = component_text(rt, alloc, file, &catalogue.c2);
    format!(in alloc; "{c1}, {c1x}, {c2}").expect(rt, "memory")
}

/// What a run left: its entries with a digest of their seats, replies and quanta; peak and charge; the quanta of callers and of workers; the
/// swaps of passes and of deep merges; the catalogue's version and lanes; and of C1, C1' and C2 how many entries there are, what they weigh,
/// and a digest of their keys, kinds and counts.
pub fn line_of(
    rt: &impl Abort,
    alloc: Global,
    file: &mut File,
    annals: &Annals,
    totals: &Totals,
) -> String {
    let history = history_text(rt, alloc, annals, totals);
    let merges = merges_text(rt, alloc, totals);
    let lanes = lanes_text(rt, alloc, file);
    let components = components_text(rt, alloc, file);
    format!(in alloc; "{history}, {merges}, {lanes}, {components}").expect(rt, "memory")
}
