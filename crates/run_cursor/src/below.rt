//! The record of a key among the entries in bytes. It is found without a copy of the keys and records before it.
ghost use Rattle.std.specs.Prelude.{◌≡◌, ℕ, List, IfSome, IfNone};
ghost use Rattle.std.specs.FinMap.{find as find_in};
ghost use Rattle.blsm_model.specs.Keys.{key_cmp};
ghost use Rattle.record_delta.specs.Entries.{Entries};
ghost use Rattle.entry_codec.specs.Spelling.{BeginsWith};
ghost use Rattle.page_file.specs.Entry.{entries_bytes, AreEntries, AreRising};
ghost use Rattle.run_cursor.specs.Below.{BeginsBelow, NoneBelow};

use blsm_model::{Key, Text, Value};
use entry_codec::{peek_key, read_over};
use record_delta::Rec;

// The length in bytes of the entry at the front, and the bytes behind it, if its key is below this one.
fn first_below<'a>(bytes: &'a [u8], key: &[u8]) -> Option<(usize, &'a [u8])>
    ensures below { IfSome result (λ p. BeginsBelow key.now bytes.now p.0 p.1.now) }
    ensures none { IfNone result (NoneBelow key.now bytes.now) }
{
    let (found, len) = peek_key(bytes)?;
    // Unlike `<`, `cmp` goes over what two keys share in long strides.
    if found.cmp(&key).is_lt() {
        let (_, behind) = bytes.split_at(len);
        Some((len, behind))
    } else {
        None
    }
}

// The record of the entry at the front, whose key is this one. It is read over an empty base, since most are bases.
fn read_record(bytes: &[u8], key: &Key) -> Rec
    requires { (front : Key) × (rec : Rec) × BeginsWith bytes.now front rec }
    ensures { (front : Key) (rec : Rec) → BeginsWith bytes.now front rec → result ≡ rec }
{
    let mut same = key.copy();
    let mut rec = Rec::Base(Value {
        count: 0,
        text: Text::empty(),
    });
    read_over(bytes, &mut same, &mut rec);
    rec
}

/// The record of a key among entries whose keys rise, if one of them has it.
pub fn record_among(bytes: &[u8], key: &Key) -> Option<Rec>
    ensures { (entries : Entries) → AreEntries entries → AreRising entries → bytes.now ≡ entries_bytes entries → result ≡ find_in key_cmp key.now entries }
{
    let mut rest = bytes;
    while let Some((_, behind)) = first_below(rest, key.as_bytes()) {
        rest = behind;
    }
    let (found, _) = peek_key(rest)?;
    if key.as_bytes().cmp(&found).is_eq() {
        Some(read_record(rest, key))
    } else {
        None
    }
}
