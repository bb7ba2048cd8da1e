// The summary of a run of a script that was made.
ghost use Rattle.std.specs.Prelude.{◌≡◌, ◌+◌, ◌<◌, ◌≤◌, ◌++◌, [], List, count_by, length, slice_index};
ghost use Rattle.std.specs.List.{All};
ghost use Rattle.text_io.specs.Text.{Writes};
ghost use Rattle.blsm_model.specs.declared.op.Write.{Write};
ghost use Rattle.blsm_model.specs.Book.{entry_at};
ghost use Rattle.blsm_model.specs.Histories.{counted, is_done, map_after, writes_of};
ghost use Rattle.script_text.specs.Generated.{HasMadeKeys, IsMade, key_at, key_count};
ghost use Rattle.script_text.specs.Pieces.{AddsToPiece};
ghost use Rattle.script_text.specs.Summary.{Tells, commands_line, full_line, is_of, keys_line, largest_line, most_quanta, peak_line, quanta_of_write, summary_text, trial_line, work_line};

use crate::generator::MADE_KEYS;
use crate::piece::{LONGEST, Piece};
use blsm_model::{Annals, Key, Op, ShortReply, Totals};
use refusal::Failed;
use text_io::{Sink, write_all};

const PLACES: usize = MADE_KEYS as usize;

// The work bound, at the default geometry, of the heaviest write that is made, which weighs 218 bytes (`made_bound`).
const MADE_BOUND: u64 = 3;

// The longest line of a summary is shorter.
const LINE: usize = 128;

// What is counted: the entries with such a command, or with such a reply.
#[derive(Clone, Copy)]
enum Kind {
    Puts,
    Adds,
    Dels,
    Gets,
    Full,
}

fn is_of(kind: Kind, annals: &Annals, place: u32) -> bool
    requires { place < length annals.now.entries }
    ensures { result ≡ is_of kind (entry_at annals.now place) }
{
    let op = annals.op(place);
    match kind {
        Kind::Puts => matches!(op, Op::Put(..)),
        Kind::Adds => matches!(op, Op::Add(..)),
        Kind::Dels => matches!(op, Op::Del(_)),
        Kind::Gets => matches!(op, Op::Get(_)),
        Kind::Full => matches!(annals.short_reply(place), Some(ShortReply::Full(_))),
    }
}

fn count_entries(annals: &Annals, kind: Kind) -> u32
    ensures { result ≡ count_by (is_of kind) annals.now.entries }
{
    let mut total = 0;
    for place in 0..annals.len() as u32 {
        total += u32::from(is_of(kind, annals, place));
    }
    total
}

fn quanta_of_write(annals: &Annals, place: u32) -> u64
    requires { place < length annals.now.entries }
    ensures { result ≡ quanta_of_write (entry_at annals.now place) (slice_index annals.now.quanta place) }
{
    if annals.op(place).is_write() {
        annals.quanta(place)
    } else {
        0
    }
}

fn most_quanta(annals: &Annals) -> u64
    ensures { result ≡ most_quanta annals.now.entries annals.now.quanta }
{
    let mut most = 0u64;
    for place in 0..annals.len() as u32 {
        most = most.max(quanta_of_write(annals, place));
    }
    most
}

// What a digit stands for.
fn digit_value(digit: u8) -> usize
    requires { 48 ≤ digit }
    ensures { result + 48 ≡ digit }
{
    (digit - b'0') as usize
}

// The place of a key that the generator makes.
fn place_of(key: &Key) -> usize
    requires { IsMade key.now }
    ensures within { result < key_count }
    ensures is { key.now ≡ key_at result }
{
    match key.as_bytes() {
        [_, a, b, c, d, e] => {
            digit_value(*a) * 10_000
                + digit_value(*b) * 1_000
                + digit_value(*c) * 100
                + digit_value(*d) * 10
                + digit_value(*e)
        }
        _ => unreachable!(),
    }
}

// Raises the flag of a key that is written, and lowers that of one that is removed.
fn note_write(flags: &mut [bool; PLACES], op: &Op)
    requires { HasMadeKeys op.now }
    ensures { (writes : List Write) → Tells flags.old writes → Tells flags.new (writes ++ writes_of op.now) }
{
    match op {
        Op::Put(key, _) => flags[place_of(key)] = true,
        Op::Add(key, _) => flags[place_of(key)] = true,
        Op::Tail(key, _) => flags[place_of(key)] = true,
        Op::Del(key) => flags[place_of(key)] = false,
        Op::New(key, _) => flags[place_of(key)] = true,
        Op::Swap(key, _, _) => flags[place_of(key)] = true,
        _ => (),
    }
}

fn is_done(annals: &Annals, place: u32) -> bool
    requires { place < length annals.now.entries }
    ensures { result ≡ is_done (entry_at annals.now place).reply }
{
    matches!(annals.short_reply(place), Some(ShortReply::Done))
}

fn note_entry(flags: &mut [bool; PLACES], annals: &Annals, place: u32)
    requires place { place < length annals.now.entries }
    requires keys { HasMadeKeys (entry_at annals.now place).op }
    ensures { (writes : List Write) → Tells flags.old writes → Tells flags.new (writes ++ counted (entry_at annals.now place)) }
{
    if is_done(annals, place) {
        note_write(flags, annals.op(place));
    }
}

fn count_flags(flags: &[bool; PLACES]) -> u64
    ensures { result ≡ count_by (λ flag. flag) flags.now }
{
    flags.iter().filter(|flag| **flag).count() as u64
}

// How many keys are present after the history.
fn count_keys(annals: &Annals) -> u64
    requires { All (λ e. HasMadeKeys e.op) annals.now.entries }
    ensures { result ≡ length (map_after [] annals.now.entries) }
{
    let mut flags = [false; PLACES];
    for place in 0..annals.len() as u32 {
        note_entry(&mut flags, annals, place);
    }
    count_flags(&flags)
}

fn add_trial_line(piece: &mut Piece, seed: u64, count: u32)
    requires { length piece.old + LINE ≤ LONGEST }
    ensures { AddsToPiece piece.old (trial_line seed count) LINE piece.new }
{
    piece.add_named_number(b"trial seed", seed);
    piece.add_named_number(b" count", u64::from(count));
    piece.add(b"\n");
}

fn add_commands_line(piece: &mut Piece, annals: &Annals)
    requires { length piece.old + LINE ≤ LONGEST }
    ensures { AddsToPiece piece.old (commands_line annals.now.entries) LINE piece.new }
{
    piece.add_named_number(b"puts", u64::from(count_entries(annals, Kind::Puts)));
    piece.add_named_number(b" adds", u64::from(count_entries(annals, Kind::Adds)));
    piece.add_named_number(b" dels", u64::from(count_entries(annals, Kind::Dels)));
    piece.add_named_number(b" gets", u64::from(count_entries(annals, Kind::Gets)));
    piece.add(b"\n");
}

fn add_full_line(piece: &mut Piece, annals: &Annals)
    requires { length piece.old + LINE ≤ LONGEST }
    ensures { AddsToPiece piece.old (full_line annals.now.entries) LINE piece.new }
{
    piece.add_named_number(b"full", u64::from(count_entries(annals, Kind::Full)));
    piece.add(b"\n");
}

fn add_peak_line(piece: &mut Piece, totals: &Totals)
    requires { length piece.old + LINE ≤ LONGEST }
    ensures { AddsToPiece piece.old (peak_line totals.now) LINE piece.new }
{
    piece.add_named_number(b"c0", totals.peak);
    piece.add_named_number(b" of", totals.high);
    piece.add(b"\n");
}

fn add_largest_line(piece: &mut Piece, annals: &Annals)
    requires { length piece.old + LINE ≤ LONGEST }
    ensures { AddsToPiece piece.old (largest_line annals.now.entries annals.now.quanta) LINE piece.new }
{
    piece.add_named_number(b"largest q", most_quanta(annals));
    piece.add_named_number(b" of", MADE_BOUND);
    piece.add(b"\n");
}

fn add_work_line(piece: &mut Piece, totals: &Totals)
    requires { length piece.old + LINE ≤ LONGEST }
    ensures { AddsToPiece piece.old (work_line totals.now) LINE piece.new }
{
    piece.add_named_sum(b"quanta", totals.callers, totals.workers);
    piece.add_named_number(b" swaps", totals.passes);
    piece.add_and_number(totals.deeps);
    piece.add(b"\n");
}

fn add_keys_line(piece: &mut Piece, annals: &Annals, totals: &Totals)
    requires room { length piece.old + LINE ≤ LONGEST }
    requires keys { All (λ e. HasMadeKeys e.op) annals.now.entries }
    ensures { AddsToPiece piece.old (keys_line annals.now.entries totals.now) LINE piece.new }
{
    piece.add_named_number(b"keys", count_keys(annals));
    piece.add_named_number(b" charge", totals.charge);
    piece.add(b"\n");
}

/// Prints the summary of a run from an empty store: how many commands of each kind there were and how many were refused
/// as full, the memory table's greatest weight, the greatest quanta of a write, all quanta and swaps, how many keys are
/// present at the end, and the charge. It is for a history of a script that `generate` made. It takes no memory.
pub fn print_summary<K: Sink>(
    sink: &mut K,
    seed: u64,
    count: u32,
    annals: &Annals,
    totals: &Totals,
) -> Result<(), Failed>
    requires { All (λ e. HasMadeKeys e.op) annals.now.entries }
    ensures { Writes (summary_text seed count annals.now.entries annals.now.quanta totals.now) result (K.state sink.old) (K.state sink.new) }
{
    let mut piece = Piece::new();
    add_trial_line(&mut piece, seed, count);
    add_commands_line(&mut piece, annals);
    add_full_line(&mut piece, annals);
    add_peak_line(&mut piece, totals);
    add_largest_line(&mut piece, annals);
    add_work_line(&mut piece, totals);
    add_keys_line(&mut piece, annals, totals);
    write_all(sink, piece.as_slice())
}
