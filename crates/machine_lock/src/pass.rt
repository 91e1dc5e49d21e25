//! A pass of a turnstile.
use crate::history::View;
use atomic_table::Seat;
use std::marker::Model;

/// A worker's share in a turnstile: it takes turns with it. It has no bytes.
#[derive(Drop)]
pub struct Pass<M> {
    pub(crate) seat: Seat<Option<M>, View<M>>,
}

impl<M> Model for Pass<M> {
    ghost use Rattle.machine_lock.specs.Passes.{PassView, pass_view, IsWhole};

    ghost Value = { PassView M };

    ghost view = { λ p. pass_view p.seat };

    ghost invariant = { λ p. IsWhole p.seat };
}
