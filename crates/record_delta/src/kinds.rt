//! Changes of a value that are made without reading it: of its count, of its text, and of both. Each kind is a fold: a newer change over an older one
//! is one change that stands for both.
ghost use Rattle.std.specs.Prelude.{◌≡◌, ◌≤◌, ◌<◌, ◌↔◌, ◌^◌, ℕ, List, [], length, IsNone, IfSome};
ghost use Rattle.blsm_model.specs.declared.row.Value.{Value};
ghost use Rattle.blsm_model.specs.Format.{most_tail};
ghost use Rattle.record_delta.specs.Kinds.{IsFold, IsOfCount, IsOfText};

use blsm_model::{Text, Value};
use std::marker::Model;

/// A kind of changes. `over` is associative, and what a fold does to a value is what the older change and then the newer one do.
pub trait Fold {
    /// Holds of the values of the type.
    ghost is_change: { Self → Type 0 };

    /// One change for a newer and an older one.
    ghost over_of: { Self → Self → Self };

    /// What it leaves of a value.
    ghost onto_of: { Self → Value → Value };

    /// How many bytes it takes in an entry beside the key and what each entry has.
    ghost size_of: { Self → ℕ };

    /// A value of the type is a change.
    fn known(&self)
        ensures { is_change self.now };

    /// One change that stands for this one and for an older one.
    fn over(&self, older: &Self) -> Self
        ensures { result ≡ over_of self.now older.now };

    /// The value that it leaves of another. It takes no memory.
    fn onto(&self, base: &Value) -> Value
        ensures { result ≡ onto_of self.now base.now };

    /// Its size in bytes.
    fn size(&self) -> u64
        ensures { result ≡ size_of self.now };

    /// The laws of a fold.
    ghost folds: { IsFold is_change over_of onto_of size_of };
}

/// Changes of the count alone.
pub trait OfCount: Fold {
    /// What it leaves of a count.
    ghost counted: { Self → ℕ → ℕ };

    /// The text stays.
    ghost of_count: { IsOfCount Self.onto_of counted };
}

/// Changes of the text alone.
pub trait OfText: Fold {
    /// What it leaves of a text.
    ghost written: { Self → List ℕ → List ℕ };

    /// The count stays.
    ghost of_text: { IsOfText Self.onto_of written };
}

/// An amount that is added to the count, modulo 2^64. Its size is 0.
#[derive(PartialEq, Eq, Debug, Drop)]
pub struct AddPart(u64);

impl Model for AddPart {
    ghost use Rattle.std.specs.Prelude.{ℕ};

    ghost Value = { ℕ };

    ghost view = { λ part. part.0 };

    ghost inverse = { λ amount. record { 0 = amount } };
}

impl AddPart {
    /// The change by this amount.
    pub fn new(amount: u64) -> AddPart
        ensures { result ≡ amount }
    {
        AddPart(amount)
    }

    /// The same change once more.
    pub fn copy(&self) -> AddPart
        ensures same { result ≡ self.now }
        ensures in_range { self.now < 2 ^ 64 }
    {
        AddPart(self.amount())
    }

    /// The amount.
    pub fn amount(&self) -> u64
        ensures { result ≡ self.now }
    {
        self.0
    }
}

impl Fold for AddPart {
    ghost use Rattle.std.specs.Prelude.{⊤};
    ghost use Rattle.record_delta.specs.Kinds.{added};
    ghost use Rattle.record_delta.specs.KindLemmas.{amounts_fold};

    ghost is_change = { λ amount. ⊤ };

    ghost over_of = { added };

    ghost onto_of = { λ amount base. record { count = added amount base.count; text = base.text } };

    ghost size_of = { λ amount. 0 };

    ghost folds = { amounts_fold };

    fn known(&self) {}

    fn over(&self, older: &AddPart) -> AddPart {
        AddPart(older.0.wrapping_add(self.0))
    }

    fn onto(&self, base: &Value) -> Value {
        Value {
            count: base.count.wrapping_add(self.0),
            text: base.text.copy(),
        }
    }

    fn size(&self) -> u64 {
        0
    }
}

impl OfCount for AddPart {
    ghost use Rattle.std.specs.Prelude.{refl};
    ghost use Rattle.record_delta.specs.Kinds.{added};

    ghost counted = { added };

    ghost of_count = { λ _ _. refl };
}

/// Up to 64 bytes that are put behind the text, of which the last 64 stay then. Its size is its length; an empty one changes nothing.
#[derive(PartialEq, Eq, Debug, Drop)]
pub struct TailPart(Text);

impl Model for TailPart {
    ghost use Rattle.std.specs.Prelude.{ℕ, List};
    ghost use Rattle.record_delta.specs.Kinds.{IsTail};

    ghost Value = { List ℕ };

    ghost view = { λ part. part.0 };

    ghost invariant = { λ part. IsTail part.0 };

    ghost inverse = { λ tail. record { 0 = tail } };
}

impl TailPart {
    /// The change that puts this tail behind; `None` for more than 64 bytes.
    pub fn new(tail: Text) -> Option<TailPart>
        ensures none { IsNone result ↔ (most_tail < length tail) }
        ensures some { IfSome result (λ part. part ≡ tail) }
    {
        if tail.as_bytes().len() > Text::MAX_TAIL {
            return None;
        }
        Some(TailPart(tail))
    }

    /// The change that puts nothing behind.
    pub fn empty() -> TailPart
        ensures { result ≡ [] }
    {
        TailPart(Text::empty())
    }

    /// Becomes the change that puts these bytes behind, of which there are at most 64. It copies them and no more, and takes no memory.
    pub fn set(&mut self, tail: &[u8])
        requires { length tail.now ≤ most_tail }
        ensures { self.new ≡ tail.now }
    {
        self.0.set(tail);
    }

    /// The same change once more. It takes no memory.
    pub fn copy(&self) -> TailPart
        ensures same { result ≡ self.now }
        ensures fits { length result ≤ most_tail }
    {
        TailPart(self.0.copy())
    }

    /// Its bytes as a text, at most 64 of them.
    pub fn text(&self) -> &Text
        ensures text { result.now ≡ self.now }
        ensures fits { length self.now ≤ most_tail }
    {
        &self.0
    }
}

impl Fold for TailPart {
    ghost use Rattle.std.specs.Prelude.{length};
    ghost use Rattle.record_delta.specs.Kinds.{IsTail, tailed};
    ghost use Rattle.record_delta.specs.KindLemmas.{tails_fold};

    ghost is_change = { IsTail };

    ghost over_of = { tailed };

    ghost onto_of = { λ tail base. record { count = base.count; text = tailed tail base.text } };

    ghost size_of = { λ tail. length tail };

    ghost folds = { tails_fold };

    fn known(&self) {
        // What the type keeps is known where a field is used.
        let _ = &self.0;
    }

    fn over(&self, older: &TailPart) -> TailPart {
        TailPart(older.0.with_tail(&self.0))
    }

    fn onto(&self, base: &Value) -> Value {
        Value {
            count: base.count,
            text: base.text.with_tail(&self.0),
        }
    }

    fn size(&self) -> u64 {
        self.0.as_bytes().len() as u64
    }
}

impl OfText for TailPart {
    ghost use Rattle.std.specs.Prelude.{refl};
    ghost use Rattle.record_delta.specs.Kinds.{tailed};

    ghost written = { tailed };

    ghost of_text = { λ _ _. refl };
}

/// A change of the count and one of the text. Which comes first makes no difference, since they change different parts.
#[derive(PartialEq, Eq, Debug, Drop)]
pub struct Both<A, B> {
    /// What it does to the count.
    pub count: A,
    /// What it does to the text.
    pub text: B,
}

impl<A: OfCount, B: OfText> Fold for Both<A, B> {
    ghost use Rattle.record_delta.specs.KindLemmas.{both_fold};

    ghost is_change = { λ both. A.is_change both.count × B.is_change both.text };

    ghost over_of = { λ newer older. record { count = A.over_of newer.count older.count; text = B.over_of newer.text older.text } };

    ghost onto_of = { λ both base. B.onto_of both.text (A.onto_of both.count base) };

    // A change of the count alone has none.
    ghost size_of = { λ both. B.size_of both.text };

    ghost folds = { both_fold A.folds B.folds A.counted A.of_count B.written B.of_text };

    fn known(&self) {
        self.count.known();
        self.text.known();
    }

    fn over(&self, older: &Both<A, B>) -> Both<A, B> {
        Both {
            count: self.count.over(&older.count),
            text: self.text.over(&older.text),
        }
    }

    fn onto(&self, base: &Value) -> Value {
        self.text.onto(&self.count.onto(base))
    }

    fn size(&self) -> u64 {
        self.text.size()
    }
}
