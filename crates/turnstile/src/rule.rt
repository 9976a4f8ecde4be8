//! The rule of the table on which passes step, and what the table is told once.
use crate::kept::Kept;
use crate::view::View;
use atomic_table::{Seat, Shared, Table, TableRule};
use std::alloc::Global;
use std::marker::PhantomData;
use std::snapshot::Snapshot;

/// What the table is told once: how many passes are made, and the value as it came.
#[derive(Drop)]
pub struct Start<V> {
    pub made: u32,
    pub value: Snapshot<V>,
}

/// The rule of the turnstile (`docs/MACHINE.md`).
pub struct InTurn<V> {
    marker: PhantomData<V>,
}

impl<V: Kept> TableRule<Option<V>, View<V::Entry>, Start<V>> for InTurn<V> {
    ghost use Rattle.std.specs.Prelude.{◌-◌, length};
    ghost use Rattle.turnstile.specs.Rule.{Stands};
    ghost use Rattle.turnstile.specs.Views.{beginning};

    ghost holds = { λ key s. Stands V.entries V.number key.made (length (V.entries key.value.value)) s };

    ghost first = { λ key. beginning key.made (V.entries key.value.value) 0 (key.made - 1) };
}

pub(crate) type Gate<V> = Table<Option<V>, View<<V as Kept>::Entry>, Start<V>, InTurn<V>, Global>;

pub(crate) type Words<V> = Shared<Option<V>, View<<V as Kept>::Entry>, Start<V>, InTurn<V>>;

pub(crate) type Place<V> = Seat<Option<V>, View<<V as Kept>::Entry>>;
