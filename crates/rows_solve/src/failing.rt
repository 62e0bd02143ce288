//! `FailingMaster`, a master that fails for want of pivots at the calls that it is told.
//!
//! `FailingMaster`, a master that fails for want of pivots with none made (`failure`) at every call of
//! `node`, or at the calls of listed numbers (`fails_at`), on nodes of at most 1,500 rows; at each other call
//! it answers as strictly as the plain one, which it asks; strict exactly where it never fails of its own.
//! That it meets the contract of `Master` is proved.

ghost use Rattle.std.specs.Prelude.{◌≡◌, IsTrue, true};
ghost use Rattle.search_masters.specs.Refusals.{counted};
ghost use Rattle.rows_solve.specs.Failing.{fails_at, is_none_listed};

use lp_master_rows::{Day, count_rows};
use model_rosters::{Cut, Memory};
use search_branch_price::{Master, PlainMaster, Pool, Watch};
use search_masters::{Cause, Handover, NodeEnd};
use std::alloc::Global;
use tree_cheapest::Pricer;

/// The most rows of a node on which it fails.
const ROWS: usize = 1500;

/// A master that fails on demand, at listed calls or at every one, and else answers as a plain one. It is
/// strict exactly where it never fails of its own.
#[derive(Drop)]
pub struct FailingMaster {
    every: bool,
    calls: Vec<u32>,
    called: u32,
    refused: u64,
    plain: PlainMaster,
}

/// Returns the count of refusals after the end of a node.
fn count_end(refused: u64, end: &NodeEnd) -> u64
    ensures { result ≡ counted refused end.now }
{
    match end {
        NodeEnd::Best { .. }
        | NodeEnd::Near { .. }
        | NodeEnd::Failed(Cause::Rows { .. })
        | NodeEnd::Stopped(_) => refused,
        NodeEnd::Failed(Cause::Wide(_)) | NodeEnd::Failed(Cause::Spent { .. }) => {
            refused.saturating_add(1)
        }
    }
}

impl FailingMaster {
    /// Returns a master that fails at every call, or at the calls of these numbers, which count from 1. It
    /// has refused no node.
    pub fn new(every: bool, calls: Vec<u32>) -> FailingMaster
        ensures every { result.every ≡ every }
        ensures calls { result.calls ≡ calls }
        ensures called { result.called ≡ 0 }
        ensures none { result.refused ≡ 0 }
    {
        FailingMaster {
            every,
            calls,
            called: 0,
            refused: 0,
            plain: PlainMaster::new(),
        }
    }

    /// Returns how many nodes were refused; it stays at the last value of a u64.
    pub fn refused(&self) -> u64
        ensures { result ≡ self.now.refused }
    {
        self.refused
    }

    // Says whether it fails at this call.
    fn fails(&self) -> bool
        ensures fails { result ≡ fails_at self.now.every self.now.calls.items self.now.called }
        ensures listed { result ≡ true → IsTrue (is_none_listed self.now.every self.now.calls.items) → ⊥ }
    {
        self.every || self.calls.contains(&self.called)
    }
}

impl Master for FailingMaster {
    ghost use Rattle.std.specs.Prelude.{◌≡◌, ◌≤◌, ◌+◌, ◌-◌, ◌^◌, min, true, false, IfOk, MatchResult, length};
    ghost use Rattle.law_bounds.specs.master_laws.Rows.{rows_of};
    ghost use Rattle.search_masters.specs.Refusals.{EndsWell, counted};
    ghost use Rattle.rows_solve.specs.Failing.{fails_at, failure, is_none_listed};
    ghost use Rattle.search_masters.specs.Tasks.{IsBusyNode};
    ghost use Rattle.search_columns.specs.Tools.{AreTools, StayTools};

    ghost refused = { λ m. m.refused };

    ghost strict = { λ m. is_none_listed m.every m.calls.items };

    /// Fails at each call, or at the listed ones, for want of pivots without one made, where the node has at
    /// most 1,500 rows; else it answers as a plain master.
    fn node<W: Watch>(
        &mut self,
        alloc: Global,
        day: &Day,
        pricer: &mut Pricer,
        pool: &mut Pool,
        cuts: &[Cut],
        handover: &mut Handover,
        watch: &W,
    ) -> Result<NodeEnd, Memory>
        requires node { IsBusyNode day.now cuts.now }
        requires tools { AreTools day.now pricer.old pool.old }
        ensures same { (self.new.every ≡ self.old.every) × (self.new.calls ≡ self.old.calls) }
        ensures called { self.new.called ≡ min (self.old.called + 1) (2 ^ 32 - 1) }
        ensures fails { fails_at self.old.every self.old.calls.items self.new.called ≡ true
            → length (rows_of day.now.instance.now cuts.now) ≤ 1500 → result ≡ failure }
        ensures plain { fails_at self.old.every self.old.calls.items self.new.called ≡ false
            → IfOk result (EndsWell day.now.instance.now cuts.now pool.new true (W.patient watch.now)) }
        ensures end { IfOk result (EndsWell day.now.instance.now cuts.now pool.new
            (is_none_listed self.old.every self.old.calls.items) (W.patient watch.now)) }
        ensures counts { MatchResult result
            (λ end. self.new.refused ≡ counted self.old.refused end)
            (λ fault. self.new.refused ≡ self.old.refused) }
        ensures rises { self.old.refused ≤ self.new.refused }
        ensures within { self.new.refused ≤ 2 ^ 64 - 1 }
        ensures strict_stays { is_none_listed self.new.every self.new.calls.items
            ≡ is_none_listed self.old.every self.old.calls.items }
        ensures tools { StayTools day.now pricer.new pool.old pool.new }
    {
        let refused = self.refused;
        self.called = self.called.saturating_add(1);
        if count_rows(day.instance, cuts) <= ROWS && self.fails() {
            self.refused = refused.saturating_add(1);
            return Ok(NodeEnd::Failed(Cause::Spent { pivots: 0 }));
        }
        let end = self
            .plain
            .node(alloc, day, pricer, pool, cuts, handover, watch)?;
        self.refused = count_end(refused, &end);
        Ok(end)
    }
}
