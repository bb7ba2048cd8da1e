// The rule of the table, and the names of its steps.
use crate::view::View;
use atomic_table::{Join, Play, Split, TableRule};
use blsm_model::Stands;
use std::marker::PhantomData;
use std::snapshot::Snapshot;

pub struct Turns<V> {
    marker: PhantomData<V>,
}

impl<V: Stands> TableRule<Option<V>, View<V>, Snapshot<V>> for Turns<V> {
    ghost use Rattle.turn_lock.specs.Rule.{Kept};
    ghost use Rattle.turn_lock.specs.Views.{opening_view};

    ghost holds = { λ key. Kept V.facts V.stands key.value };

    ghost first = { λ key. opening_view key.value };
}

pub struct Draws;

impl<V> Play<Option<V>, View<V>> for Draws {
    ghost use Rattle.turn_lock.specs.Plays.{drew};

    ghost then = { drew };
}

pub struct Looks;

impl<V: Stands> Play<Option<V>, View<V>> for Looks {
    ghost use Rattle.turn_lock.specs.Plays.{looked};

    ghost then = { looked V.facts V.stands };
}

pub struct Gives;

impl<V: Stands> Play<Option<V>, View<V>> for Gives {
    ghost use Rattle.turn_lock.specs.Plays.{gave};

    ghost then = { gave V.facts };
}

pub struct Cuts;

impl<V> Split<View<V>> for Cuts {
    ghost use Rattle.turn_lock.specs.Views.{cut, given};

    ghost left = { cut };

    ghost right = { given };
}

pub struct Takes;

impl<V> Join<View<V>> for Takes {
    ghost use Rattle.turn_lock.specs.Views.{joined, spent};

    ghost both = { joined };

    ghost spent = { spent };
}

pub struct Publishes;

impl<V> Play<Option<V>, View<V>> for Publishes {
    ghost use Rattle.turn_lock.specs.Plays.{published};

    ghost then = { published };
}

pub struct Ends;

impl<V> Play<Option<V>, View<V>> for Ends {
    ghost use Rattle.turn_lock.specs.Plays.{ended};

    ghost then = { ended };
}

pub struct ReadsFront;

impl<V> Play<Option<V>, View<V>> for ReadsFront {
    ghost use Rattle.turn_lock.specs.Plays.{read_front};

    ghost then = { read_front };
}

pub struct ReadsBytes;

impl<V: Stands> Play<Option<V>, View<V>> for ReadsBytes {
    ghost use Rattle.turn_lock.specs.Plays.{read_bytes};

    ghost then = { read_bytes V.most };
}
