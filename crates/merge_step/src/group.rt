//! The least key of two runs.
ghost use Rattle.std.specs.Prelude.{◌≡◌, ◌≤◌, ◌+◌, ◌*◌, IfSome, Some, None, option_map};
ghost use Rattle.blsm_model.specs.Format.{least_weight, most_weight};
ghost use Rattle.merge_step.specs.Group.{least_of, group_of, group_at};
ghost use Rattle.merge_step.specs.declared.group.Taken.TheVariants.{InRoom};
ghost use Rattle.record_delta.specs.Folding.{fold as fold_of};
ghost use Rattle.blsm_model.specs.declared.key.Key.{Key};
ghost use Rattle.blsm_model.specs.Keys.{key_cmp};
ghost use Rattle.record_delta.specs.declared.record.Rec.{Rec};
ghost use Rattle.record_delta.specs.Records.{weight as weight_with};

use blsm_model::Key;
use record_delta::{Rec, Stream, fold, fold_over, weight};
use std::cmp::Ordering;

/// The least key of two runs, the newer run's record folded over the older one's where both have it, and the weight of the records
/// that this takes, in bytes. `None` exactly where both are at their ends.
pub fn least_group<A: Stream, B: Stream>(newer: &A, older: &B) -> Option<(Key, Rec, u64)>
    ensures group { result ≡ group_of (A.at newer.now) (B.at older.now) }
    // A step takes one record or two, and the folded one weighs no more than they do.
    ensures some { IfSome result (λ g. least_weight ≤ g.2) }
    ensures light { IfSome result (λ g. (g.2 ≤ 2 * most_weight) × (weight_with g.0 g.1 ≤ g.2)) }
{
    least_of_heads(newer.head(), older.head())
}

/// The same of the entries at which they stand.
pub fn least_of_heads(
    newer: Option<(Key, Rec)>,
    older: Option<(Key, Rec)>,
) -> Option<(Key, Rec, u64)>
    ensures group { result ≡ group_of newer older }
    ensures some { IfSome result (λ g. least_weight ≤ g.2) }
    ensures light { IfSome result (λ g. (g.2 ≤ 2 * most_weight) × (weight_with g.0 g.1 ≤ g.2)) }
    // It weighs no less than the newer one's record of the key.
    ensures grows { IfSome result (λ g. (rec : Rec) → newer ≡ Some (g.0, rec) → weight_with g.0 rec ≤ weight_with g.0 g.1) }
{
    match (newer, older) {
        (None, None) => None,
        (Some(entry), None) | (None, Some(entry)) => Some(alone(entry)),
        (Some(newer), Some(older)) => Some(least(newer, older)),
    }
}

/// Where the least group of two inputs is, and the weight of the records that it takes, in bytes.
#[derive(Clone, Copy, Debug, Drop)]
pub enum Taken {
    /// It is the older input's entry, where it lies.
    Older(u64),
    /// It is in the room that was lent for it.
    InRoom(u64),
}

/// The least group of entries that are lent. An older one that is taken alone stays where it lies, and the room as it was; else the group goes into
/// the room.
pub fn least_of_lent(
    newer: Option<(&Key, &Rec)>,
    older: Option<(&Key, &Rec)>,
    room: &mut Option<(Key, Rec)>,
) -> Option<Taken>
    ensures group { group_at result (option_map (λ e. (e.0.now, e.1.now)) older.entry) room.new
        ≡ group_of (option_map (λ e. (e.0.now, e.1.now)) newer.entry) (option_map (λ e. (e.0.now, e.1.now)) older.entry) }
    ensures some { IfSome (group_at result (option_map (λ e. (e.0.now, e.1.now)) older.entry) room.new) (λ g. least_weight ≤ g.2) }
    ensures light { IfSome (group_at result (option_map (λ e. (e.0.now, e.1.now)) older.entry) room.new) (λ g. (g.2 ≤ 2 * most_weight) × (weight_with g.0 g.1 ≤ g.2)) }
    ensures grows { IfSome (group_at result (option_map (λ e. (e.0.now, e.1.now)) older.entry) room.new)
        (λ g. (rec : Rec) → option_map {U = Key × Rec} (λ e. (e.0.now, e.1.now)) newer.entry ≡ Some (g.0, rec) → weight_with g.0 rec ≤ weight_with g.0 g.1) }
{
    match (newer, older) {
        (None, None) => None,
        (Some((key, rec)), None) => Some(copied(key, rec, room)),
        (None, Some((key, rec))) => Some(Taken::Older(weight(key, rec))),
        (Some((key, rec)), Some((other, below))) => Some(lesser(key, rec, other, below, room)),
    }
}

// The lesser of a newer entry and an older one, or one of both.
fn lesser(key: &Key, rec: &Rec, other: &Key, below: &Rec, room: &mut Option<(Key, Rec)>) -> Taken
    ensures group { group_at (Some result) (Some (other.now, below.now)) room.new ≡ Some (least_of (key_cmp key.now other.now) (key.now, rec.now) (other.now, below.now)) }
    ensures some { IfSome (group_at (Some result) (Some (other.now, below.now)) room.new) (λ g. least_weight ≤ g.2) }
    ensures light { IfSome (group_at (Some result) (Some (other.now, below.now)) room.new) (λ g. (g.2 ≤ 2 * most_weight) × (weight_with g.0 g.1 ≤ g.2)) }
    ensures grows { IfSome (group_at (Some result) (Some (other.now, below.now)) room.new)
        (λ g. (given : Rec) → key.now ≡ g.0 → rec.now ≡ given → weight_with g.0 given ≤ weight_with g.0 g.1) }
{
    match key.cmp(other) {
        Ordering::Less => copied(key, rec, room),
        Ordering::Equal => folded(key, rec, other, below, room),
        Ordering::Greater => Taken::Older(weight(other, below)),
    }
}

// Puts an entry into the room, over what stands there.
fn put_in(key: &Key, rec: &Rec, room: &mut Option<(Key, Rec)>)
    ensures { room.new ≡ Some (key.now, rec.now) }
{
    if let Some((same, kept)) = room {
        same.set(key.as_bytes());
        kept.set(rec);
        return;
    }
    put_first(key, rec, room);
}

// What holds a record stays a call, as a function zeroes all its locals at entry.
// The same where the room is empty.
#[inline(never)]
fn put_first(key: &Key, rec: &Rec, room: &mut Option<(Key, Rec)>)
    ensures { room.new ≡ Some (key.now, rec.now) }
{
    *room = Some((key.copy(), rec.copy()));
}

// An entry that is taken alone, in the room.
fn copied(key: &Key, rec: &Rec, room: &mut Option<(Key, Rec)>) -> Taken
    ensures group { result ≡ InRoom (weight_with key.now rec.now) }
    ensures room { room.new ≡ Some (key.now, rec.now) }
    ensures some { least_weight ≤ weight_with key.now rec.now }
    ensures light { weight_with key.now rec.now ≤ most_weight }
{
    put_in(key, rec, room);
    Taken::InRoom(weight(key, rec))
}

// Two entries of one key, in the room.
fn folded(key: &Key, rec: &Rec, other: &Key, below: &Rec, room: &mut Option<(Key, Rec)>) -> Taken
    requires { key_cmp key.now other.now ≡ Ordering.Equal }
    ensures group { result ≡ InRoom (weight_with key.now rec.now + weight_with other.now below.now) }
    ensures room { room.new ≡ Some (key.now, fold_of rec.now below.now) }
    ensures some { least_weight ≤ weight_with key.now rec.now + weight_with other.now below.now }
    ensures most { weight_with key.now rec.now + weight_with other.now below.now ≤ 2 * most_weight }
    ensures light { weight_with key.now (fold_of rec.now below.now) ≤ weight_with key.now rec.now + weight_with other.now below.now }
    ensures grows { weight_with key.now rec.now ≤ weight_with key.now (fold_of rec.now below.now) }
{
    put_in(key, rec, room);
    match room {
        Some((_, kept)) => fold_over(kept, below),
        None => unreachable!(),
    }
    Taken::InRoom(weight(key, rec) + weight(other, below))
}

/// The group that lies there, lent, with its weight in bytes.
pub fn lying<'a>(
    taken: Option<Taken>,
    older: Option<(&'a Key, &'a Rec)>,
    room: &'a Option<(Key, Rec)>,
) -> Option<(&'a Key, &'a Rec, u64)>
    ensures { option_map (λ g. (g.0.now, g.1.now, g.2)) result ≡ group_at taken (option_map (λ e. (e.0.now, e.1.now)) older.entry) room.now }
{
    match (taken, older, room) {
        (Some(Taken::Older(weight)), Some((key, rec)), _) => Some((key, rec, weight)),
        (Some(Taken::InRoom(weight)), _, Some((key, rec))) => Some((key, rec, weight)),
        _ => None,
    }
}

// An entry whose key the other run doesn't have.
fn alone(entry: (Key, Rec)) -> (Key, Rec, u64)
    ensures entry { result ≡ (entry.0, entry.1, weight_with entry.0 entry.1) }
    ensures some { least_weight ≤ result.2 }
    ensures light { result.2 ≤ most_weight }
{
    let (key, rec) = entry;
    let weight = weight(&key, &rec);
    (key, rec, weight)
}

// The lesser of two entries, or one of both.
fn least(newer: (Key, Rec), older: (Key, Rec)) -> (Key, Rec, u64)
    ensures entry { result ≡ least_of (key_cmp newer.0 older.0) newer older }
    ensures some { least_weight ≤ result.2 }
    ensures light { (result.2 ≤ 2 * most_weight) × (weight_with result.0 result.1 ≤ result.2) }
    ensures grows { (rec : Rec) → newer ≡ (result.0, rec) → weight_with result.0 rec ≤ weight_with result.0 result.1 }
{
    match newer.0.cmp(&older.0) {
        Ordering::Less => alone(newer),
        Ordering::Equal => both(newer, older),
        Ordering::Greater => alone(older),
    }
}

// Two entries of one key.
fn both(newer: (Key, Rec), older: (Key, Rec)) -> (Key, Rec, u64)
    requires { key_cmp newer.0 older.0 ≡ Ordering.Equal }
    ensures entry { result ≡ least_of Ordering.Equal newer older }
    ensures some { least_weight ≤ result.2 }
    ensures light { (result.2 ≤ 2 * most_weight) × (weight_with result.0 result.1 ≤ result.2) }
    ensures grows { weight_with newer.0 newer.1 ≤ weight_with result.0 result.1 }
{
    let (key, rec) = newer;
    let (same, below) = older;
    let weight = weight(&key, &rec) + weight(&same, &below);
    (key, fold(rec, below), weight)
}
