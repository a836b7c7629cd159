ghost use Rattle.std.specs.Prelude.{◌≡◌, ◌≤◌, ℕ, Option, None, Some, IfSome, IfNone, MatchOption, OnOk, OnErr};
ghost use Rattle.dt_snapshot.specs.Cuts.{has_reached};
ghost use Rattle.dt_snapshot.specs.Keeping.{new_keeper, last_cycle, cycle_reached, state_for, held_at, held_after, IsNotBelow, with_state, IsFirstEarly, states_from, dropped_below, forgotten};

use crate::crossings::reaches_new;
use crate::cuts::newer_cut;
use std::alloc::{AllocError, Global};
use std::marker::Model;

/// The states of one hart at cuts, from some cut on. A contract sees the hart, the interval, how far
/// states were dropped, and the states.
#[derive(Drop)]
pub struct Keeper<T: Drop> {
    hart: u8,
    interval: u64,
    dropped: Option<u64>,
    states: Vec<(u64, T)>,
}

impl<T: Drop> Model for Keeper<T> {
    ghost use Rattle.dt_snapshot.specs.Keeping.{KeeperView, IsKeeper};

    ghost Value = { KeeperView T };

    ghost view = { λ k. record { hart = k.hart; interval = k.interval; dropped = k.dropped; states = k.states.items } };

    ghost invariant = { λ k. IsKeeper k.interval k.dropped k.states.items };
}

/// Whether a cycle that was reached, where there is one, is not below a cut.
fn has_reached(last: Option<u64>, cut: u64) -> bool
    ensures { result ≡ has_reached last cut }
{
    match last {
        Some(last) => cut <= last,
        None => false,
    }
}

/// The cycle of the last state, and the one up to which states were dropped where there is none.
fn last_cycle<T>(dropped: Option<u64>, states: &[(u64, T)]) -> Option<u64>
    ensures { result ≡ last_cycle dropped states.now }
{
    match states.last() {
        Some(state) => Some(state.0),
        None => dropped,
    }
}

/// The first state of a cycle that is not below the cut.
fn find_state<T>(states: &[(u64, T)], cut: u64) -> Option<&T>
    ensures { MatchOption result (state_for states.now cut ≡ None) (λ state. state_for states.now cut ≡ Some state.now) }
{
    for entry in states {
        if cut <= entry.0 {
            return Some(&entry.1);
        }
    }
    None
}

/// The cycle of the first state, where it holds only for cuts below one.
fn first_early<T>(states: &[(u64, T)], interval: u64, cut: u64) -> Option<u64>
    requires { 1 ≤ interval }
    ensures early { IfSome result (λ stamp. IsFirstEarly interval cut stamp states.now) }
    ensures none { IfNone result (states_from interval cut states.now ≡ states.now) }
    ensures kept { IfNone result ((dropped : Option ℕ) → dropped_below interval cut dropped states.now ≡ dropped) }
{
    match states.first() {
        Some(state) if newer_cut(interval, state.0) < cut => Some(state.0),
        _ => None,
    }
}

/// Drops the first states that hold only for cuts below one.
fn drop_early<T: Drop>(
    states: &mut Vec<(u64, T)>,
    dropped: &mut Option<u64>,
    interval: u64,
    cut: u64,
)
    requires { 1 ≤ interval }
    ensures states { states.new.items ≡ states_from interval cut states.old.items }
    ensures dropped { dropped.new ≡ dropped_below interval cut dropped.old states.old.items }
{
    while let Some(stamp) = first_early(states, interval, cut) {
        *dropped = Some(stamp);
        states.remove(0);
    }
}

impl<T: Drop> Keeper<T> {
    /// No state is kept yet.
    pub fn new(alloc: Global, hart: u8, interval: u64) -> Keeper<T>
        requires { 1 ≤ interval }
        ensures { result ≡ new_keeper hart interval }
    {
        Keeper {
            hart,
            interval,
            dropped: None,
            states: Vec::new(alloc),
        }
    }

    pub fn hart(&self) -> u8
        ensures { result ≡ self.now.hart }
    {
        self.hart
    }

    /// The hart has this state as it comes to a record of this cycle. The state holds for the cuts up
    /// to the cycle that no earlier one holds for; where there is none, it is not kept.
    pub fn cross(&mut self, stamp: u64, state: T) -> Result<(), AllocError>
        requires in_time { IsNotBelow (cycle_reached self.old) stamp }
        ensures kept { OnOk result (self.new ≡ with_state self.old stamp state) }
        ensures holds { OnOk result ((cut : ℕ) → held_at self.new cut ≡ held_after self.old stamp state cut) }
        ensures in_time { OnOk result (IsNotBelow (cycle_reached self.new) stamp) }
        ensures unchanged { OnErr result (self.new ≡ self.old) }
    {
        self.states.reserve(1)?;
        if reaches_new(self.interval, last_cycle(self.dropped, &self.states), stamp) {
            self.states.push_reserved((stamp, state));
        }
        Ok(())
    }

    /// Drops the states that hold only for cuts below this one.
    pub fn forget_below(&mut self, cut: u64)
        ensures forgotten { self.new ≡ forgotten self.old cut }
        ensures reached { cycle_reached self.new ≡ cycle_reached self.old }
        ensures stays { (other : ℕ) → cut ≤ other → held_at self.new other ≡ held_at self.old other }
    {
        drop_early(&mut self.states, &mut self.dropped, self.interval, cut);
    }

    /// The state that is kept for the cut.
    pub fn state_at(&self, cut: u64) -> Option<&T>
        ensures { MatchOption result (held_at self.now cut ≡ None) (λ state. held_at self.now cut ≡ Some state.now) }
    {
        if cut % self.interval != 0 || has_reached(self.dropped, cut) {
            return None;
        }
        find_state(&self.states, cut)
    }
}
