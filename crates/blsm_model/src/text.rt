//! Texts.
ghost use Rattle.std.specs.Prelude.{◌≡◌, ◌+◌, ◌<◌, ◌≤◌, ◌↔◌, ◌++◌, length, IsNone, IfSome, []};
ghost use Rattle.blsm_model.specs.Format.{most_text};
ghost use Rattle.blsm_model.specs.Tails.{with_tail};

use arrayvec::ArrayVec;
use std::marker::Model;

/// A text of at most 435 bytes. Contracts see it as the list of its bytes.
#[derive(PartialEq, Eq, Debug, Drop)]
pub struct Text {
    bytes: ArrayVec<u8, { Text::MAX_LEN }>,
}

impl Model for Text {
    ghost use Rattle.std.specs.Prelude.{ℕ, List, ◌≤◌, length};
    ghost use Rattle.blsm_model.specs.Format.{most_text};

    ghost Value = { List ℕ };

    ghost view = { λ t. t.bytes.items };

    ghost invariant = { λ t. length t.bytes.items ≤ most_text };

    ghost inverse = { λ bytes. record { bytes = record { items = bytes } } };
}

impl Default for Text {
    ghost is_default = { λ text. text ≡ [] };

    fn default() -> Text {
        Text::empty()
    }
}

impl Text {
    /// How many bytes a text has at most.
    pub const MAX_LEN: usize = 435;

    /// How many bytes a tail has at most, and what a tail leaves of a text.
    pub const MAX_TAIL: usize = 64;

    /// The text of these bytes; `None` for more than 435.
    pub fn from_bytes(bytes: &[u8]) -> Option<Text>
        ensures none { IsNone result ↔ (most_text < length bytes.now) }
        ensures some { IfSome result (λ text. text ≡ bytes.now) }
    {
        if bytes.len() > Text::MAX_LEN {
            return None;
        }
        let mut text = Text::empty();
        push_all(&mut text.bytes, bytes);
        Some(text)
    }

    /// The text with no byte.
    pub fn empty() -> Text
        ensures { result ≡ [] }
    {
        Text {
            bytes: ArrayVec::new(),
        }
    }

    /// Its bytes, at most 435 of them.
    pub fn as_bytes(&self) -> &[u8]
        ensures bytes { result.now ≡ self.now }
        ensures fits { length result.now ≤ most_text }
    {
        self.bytes.as_slice()
    }

    /// The same text once more. It takes no memory.
    pub fn copy(&self) -> Text
        ensures { result ≡ self.now }
    {
        let mut text = Text::empty();
        push_all(&mut text.bytes, self.as_bytes());
        text
    }

    /// Becomes the text of these bytes, of which there are at most 435. It copies them and no more, and takes no memory.
    pub fn set(&mut self, bytes: &[u8])
        requires { length bytes.now ≤ most_text }
        ensures { self.new ≡ bytes.now }
    {
        // What is written over need not be blanked before.
        self.bytes.truncate(bytes.len());
        let (over, behind) = bytes.split_at(self.bytes.len());
        // A copy of no bytes is a call too.
        if !over.is_empty() {
            self.bytes.as_mut_slice().copy_from_slice(over);
        }
        if !behind.is_empty() {
            push_all(&mut self.bytes, behind);
        }
    }

    /// This text with a tail behind it: the last 64 bytes of both, and where the tail is empty the text as it is. It takes no memory.
    pub fn with_tail(&self, tail: &Text) -> Text
        ensures { result ≡ with_tail self.now tail.now }
    {
        let tail = tail.as_bytes();
        if tail.is_empty() {
            return self.copy();
        }
        let text = self.as_bytes();
        let left_out = (text.len() + tail.len()).saturating_sub(Text::MAX_TAIL);
        let mut bytes = ArrayVec::new();
        if left_out <= text.len() {
            push_all(&mut bytes, &text[left_out..]);
            push_all(&mut bytes, tail);
            return Text { bytes };
        }
        push_all(&mut bytes, &tail[left_out - text.len()..]);
        Text { bytes }
    }
}

// Puts bytes at the end, where there is room for them.
fn push_all(bytes: &mut ArrayVec<u8, { Text::MAX_LEN }>, more: &[u8])
    requires { length bytes.old.items + length more.now ≤ most_text }
    ensures { bytes.new.items ≡ bytes.old.items ++ more.now }
{
    match bytes.try_extend_from_slice(more) {
        Ok(()) => {}
        Err(_) => unreachable!(),
    }
}
