//! The atomic steps of the turnstile, by what each tells the pass that makes it.
ghost use Rattle.machine_lock.specs.Steps.{Draws, Looks, Gives, Learns};
ghost use Rattle.machine_lock.specs.Views.{left_of, right_of, both_of, spent_view};
ghost use Rattle.std.specs.Prelude.{ℕ};

use crate::chronicle::Meaning;
use crate::history::View;
use atomic_table::{Join, Play, Split};
use std::marker::{Brand, PhantomData};

/// A ticket is drawn.
pub(crate) struct Draw;

impl<M: Meaning> Play<Option<M>, View<M>> for Draw {
    ghost then = { Draws M.setting M.log M.next };
}

/// The number that is served is read; where it is the pass's own, it takes the machine.
pub(crate) struct Look;

impl<M: Meaning> Play<Option<M>, View<M>> for Look {
    ghost then = { Looks M.setting M.log M.next };
}

/// The machine goes home, and the next ticket is served.
pub(crate) struct Give;

impl<M: Meaning> Play<Option<M>, View<M>> for Give {
    ghost then = { Gives M.setting M.log M.next };
}

/// A pass that took in another learns which of them had seen more.
pub(crate) struct Learn;

impl<M: Meaning> Play<Option<M>, View<M>> for Learn {
    ghost then = { Learns M.setting M.log M.next };
}

/// How many parts a call cuts off, which the call picks.
pub(crate) trait Count {
    ghost parts: { ℕ };
}

impl Count for Brand {
    ghost parts = { 1 };
}

/// Parts are cut off.
pub(crate) struct Cut<K> {
    count: PhantomData<K>,
}

impl<M: Meaning, K: Count> Split<View<M>> for Cut<K> {
    ghost left = { left_of K.parts };

    ghost right = { right_of K.parts };
}

/// A pass takes in another.
pub(crate) struct Glue;

impl<M: Meaning> Join<View<M>> for Glue {
    ghost both = { both_of };

    ghost spent = { spent_view };
}
