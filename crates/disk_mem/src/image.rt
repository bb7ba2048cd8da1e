// One image that a crash may leave, picked by a number, as `MemDisk::image` says.
ghost use Rattle.std.specs.Prelude.{◌≡◌, ◌≢◌, ◌≤◌, Some, IfOk, IsTrue, map, length, slice_get};
ghost use Rattle.disk_mem.specs.Events.{replay, fresh, IsImage};
ghost use Rattle.disk_mem.specs.Calls.{events, written_len};
ghost use Rattle.disk_mem.specs.Changes.{change_of};
ghost use Rattle.disk_mem.specs.Recorded.{is_untouched};
ghost use Rattle.disk_mem.specs.Images.{IsPiece, IsTornAs, IsPickedOf, follow, share, start};

use crate::bytes::overwrite;
use crate::call::Call;
use crate::poke::{Poke, poke_bytes};
use refusal::NoMemory;
use std::alloc::Global;

// A byte that is neither of two.
fn other_than(old: u8, new: u8) -> u8
    ensures not_old { result ≢ old }
    ensures not_new { result ≢ new }
{
    if old != 0 && new != 0 {
        0
    } else if old != 1 && new != 1 {
        1
    } else {
        2
    }
}

// A byte that is neither the new one nor, where one stood at the place, the old one.
fn neither(old: &[u8], place: usize, new: u8) -> u8
    ensures not_old { slice_get old.now place ≢ Some result }
    ensures not_new { result ≢ new }
{
    if place < old.len() {
        return other_than(old[place], new);
    }
    other_than(new, new)
}

// What stands in the image of a write of which so many bytes are kept. `old` is what stood there before.
fn piece_of(
    alloc: Global,
    old: &[u8],
    text: &[u8],
    kept: usize,
    garbled: bool,
) -> Result<Vec<u8>, NoMemory>
    requires { kept ≤ length text.now }
    ensures { IfOk result (λ piece. IsPiece old.now text.now kept garbled piece.items) }
{
    if !garbled {
        return Ok(text[..kept].to_vec(alloc)?);
    }
    if kept == text.len() {
        return Ok(vec![in alloc; 0; text.len()]?);
    }
    let mut piece = text[..kept].to_vec(alloc)?;
    piece.push(neither(old, kept, text[kept]))?;
    Ok(piece)
}

// The parts of a number that has a kind.
const KIND: u64 = 1_000_000_000_000_000_000;

const TEAR: u64 = 1_000_000_000_000;

const PLACES: u64 = 1000;

// The number by whose digits a write is torn. `left` is what the writes before it have left of the number that picks.
fn share_of(pick: u64, left: u64, index: u64, size: u64) -> u64
    ensures { result ≡ share pick left index size }
{
    let kind = pick / KIND;
    let place = pick % PLACES;
    if kind == 0 {
        return left;
    }
    if index == pick / PLACES % PLACES {
        return pick / (PLACES * PLACES) % TEAR;
    }
    let stands = match kind {
        1 => index < place,
        2 => index != place,
        _ => index == place,
    };
    if stands { size } else { 0 }
}

// Tears a write into the image as two digits of the number say.
fn tear(
    alloc: Global,
    image: &mut Vec<u8>,
    at: u64,
    text: &[u8],
    number: u64,
) -> Result<(), NoMemory>
    ensures { IfOk result (λ _. IsTornAs number at text.now image.old.items image.new.items) }
{
    let places = text.len() as u64 + 1;
    let place = at as usize;
    if place > image.len() {
        return Ok(());
    }
    let kept = (number % places) as usize;
    let garbled = number / places % 2 == 1;
    let piece = piece_of(alloc, &image[place..], text, kept, garbled)?;
    overwrite(image, place, &piece)?;
    Ok(())
}

/// The image that the number picks of a disk that began with the bytes `first` and had these calls, before which the pokes
/// changed it.
pub(crate) fn image_of(
    alloc: Global,
    first: &[u8],
    calls: &[Call],
    written: &[u8],
    pokes: &[Poke],
    pick: u64,
) -> Result<Vec<u8>, NoMemory>
    requires { written_len calls.now ≡ length written.now }
    ensures image { IfOk result (λ image. IsTrue (is_untouched (map change_of pokes.now)) → IsImage (replay (fresh first.now) (events calls.now written.now)) image.items) }
    ensures picked { IfOk result (λ image. IsPickedOf pick (follow (map change_of pokes.now) 1 (start first.now) (events calls.now written.now)) image.items) }
{
    let mut bytes = first.to_vec(alloc)?;
    let mut image = first.to_vec(alloc)?;
    let mut left = calls;
    let mut rest = written;
    let mut number = 1u64;
    let mut choice = pick;
    let mut index = 0u64;
    while let [call, after @ ..] = left {
        poke_bytes(&mut bytes, pokes, number);
        poke_bytes(&mut image, pokes, number);
        left = after;
        number += 1;
        match *call {
            Call::Wrote(at, n) => {
                let (text, others) = rest.split_at(n);
                let place = at as usize;
                if place <= bytes.len() {
                    overwrite(&mut bytes, place, text)?;
                    let share = share_of(pick, choice, index, text.len() as u64);
                    tear(alloc, &mut image, at, text, share)?;
                    choice = choice / (text.len() as u64 + 1) / 2;
                    index += 1;
                }
                rest = others;
            }
            Call::Tore(at, n) => {
                let (text, others) = rest.split_at(n);
                let share = share_of(pick, choice, index, text.len() as u64);
                tear(alloc, &mut image, at, text, share)?;
                choice = choice / (text.len() as u64 + 1) / 2;
                index += 1;
                rest = others;
            }
            Call::Synced => {
                image = bytes.to_vec(alloc)?;
                choice = pick;
                index = 0;
            }
            Call::Passed => {}
        }
    }
    Ok(image)
}
