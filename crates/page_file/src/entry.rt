//! The entries of a page, one behind the other. They have the bytes that they have in the log.
ghost use Rattle.std.specs.Prelude.{◌↔◌, ℕ, List, [], IsTrue, IfSome, IfNone};
ghost use Rattle.page_file.specs.Entry.{HasFirstEntry, AreInBytes};

use entry_codec::peek_key;

// The key of the entry at the front of these bytes, if there is one, and the bytes behind the entry.
fn first_entry(bytes: &[u8]) -> Option<(&[u8], &[u8])>
    ensures found { IfSome result (λ p. HasFirstEntry bytes.now p.0.now p.1.now) }
    ensures none { IfNone result ((key rest : List ℕ) → HasFirstEntry bytes.now key rest → ⊥) }
{
    let (key, length) = peek_key(bytes)?;
    let (_, behind) = bytes.split_at(length);
    Some((key, behind))
}

/// Whether these bytes are so many entries, with nothing behind them, whose keys strictly rise.
pub fn are_entries(bytes: &[u8], count: u16) -> bool
    ensures { IsTrue result ↔ AreInBytes [] count bytes.now }
{
    // No key is empty, so the first one is above no bytes.
    let mut last: &[u8] = &[];
    let mut rest = bytes;
    for _ in 0..count {
        let Some((key, behind)) = first_entry(rest) else {
            return false;
        };
        // Unlike `<=`, `cmp` goes over what two keys share in long strides.
        if key.cmp(&last).is_le() {
            return false;
        }
        last = key;
        rest = behind;
    }
    rest.is_empty()
}
