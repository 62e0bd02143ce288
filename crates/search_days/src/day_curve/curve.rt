//! A curve over the greatest number of a team, point by point.

ghost use Rattle.std.specs.Prelude.{◌≡◌, ◌≤◌, ◌<◌, ◌-◌, [], IfOk, IfSome, MatchResult, length};
ghost use Rattle.model_rosters.specs.Folds.{Each};
ghost use Rattle.model_rosters.specs.SoundInstance.{IsSoundInstance};
ghost use Rattle.check_certificates.specs.Sound.{IsSoundShift};
ghost use Rattle.tree_graph.specs.Graphs.{IsGraph};
ghost use Rattle.search_primal.specs.OldRosters.{IsNoDearerThan};
ghost use Rattle.search_branch_price.specs.Found.{AreCounted};
ghost use Rattle.search_days.specs.day_curve.Curves.{
  IsNextPoint,
  first_heads,
  new_curve,
  point_day,
  point_heads,
  points_of,
};
ghost use Rattle.search_days.specs.day_curve.Staffs.{IsStaff};

use crate::day_curve::staff::{Staff, set_heads, staff_least, staff_most};
use lp_master_rows::Day;
use model_rosters::{Instance, List, Memory, Shift};
use search_branch_price::{Found, Master, Pool, SearchTask, Start, Watch, search_from};
use std::alloc::Global;
use std::marker::Model;
use tree_graph::Graph;

/// The least costs of a day over the greatest number of one team, point by point: one point for each number
/// from the team's least one, or 1, up to its greatest. The searches of all points share what they find, and
/// each is offered the roster that the curve keeps.
#[derive(Drop)]
pub struct Curve {
    alloc: Global,
    /// The day with the greatest number of the point given last, or of the first.
    instance: Instance,
    /// Whose greatest number is varied.
    staff: Staff,
    /// The greatest number of the last point.
    most: u32,
    /// How many points were given.
    given: u32,
    /// The trees that the searches have found.
    pool: Pool,
    /// The shifts of the roster that the next point is offered.
    kept: List<Shift>,
}

impl Model for Curve {
    ghost use Rattle.search_days.specs.day_curve.Curves.{CurveView, IsCurve};
    ghost use Rattle.search_days.specs.day_curve.Staffs.{with_heads};

    ghost Value = { CurveView };

    ghost view = { λ c. record {
      day = with_heads c.staff c.instance c.most;
      staff = c.staff;
      given = c.given;
      kept = c.kept;
    } };

    ghost invariant = { λ c. IsCurve c.instance c.staff c.most c.given c.pool c.kept };
}

/// Returns the greatest number of the first point of a day.
fn first_heads(instance: &Instance, staff: Staff) -> u32
    ensures { result ≡ first_heads staff instance.now }
{
    staff_least(instance, staff).max(1)
}

impl Curve {
    /// Returns the curve of a sound day over a team of it, of which no point is given yet.
    ///
    /// # Errors
    ///
    /// `Memory` where memory runs out.
    pub fn new(alloc: Global, instance: Instance, staff: Staff) -> Result<Curve, Memory>
        requires sound { IsSoundInstance instance }
        requires staff { IsStaff instance staff }
        ensures { IfOk result (λ c. c ≡ new_curve staff instance) }
    {
        let mut instance = instance;
        let most = staff_most(&instance, staff);
        let first = first_heads(&instance, staff);
        set_heads(alloc, &mut instance, staff, first);
        Ok(Curve {
            alloc,
            instance,
            staff,
            most,
            given: 0,
            pool: Pool::new(alloc),
            kept: List::new(alloc),
        })
    }

    /// Returns how many points there are.
    pub fn points(&self) -> u32
        ensures { result ≡ points_of self.now }
    {
        self.most + 1 - first_heads(&self.instance, self.staff)
    }

    /// Returns the greatest number of the point given last, and before any point that of the first.
    pub fn heads(&self) -> u32
        ensures { result ≡ point_heads self.now }
    {
        staff_most(&self.instance, self.staff)
    }

    /// Returns the day with the greatest number of the point given last, and before any point with
    /// that of the first.
    pub fn instance(&self) -> &Instance
        ensures day { result.now ≡ point_day self.now }
        ensures sound { IsSoundInstance result.now }
    {
        &self.instance
    }

    /// Takes the point given last back: it is the next one again.
    pub fn take_back(&mut self)
        requires { 0 < self.old.given }
        ensures { self.new ≡ record self.old { given = self.old.given - 1 } }
    {
        let first = first_heads(&self.instance, self.staff);
        self.given -= 1;
        let heads = first + self.given.saturating_sub(1);
        set_heads(self.alloc, &mut self.instance, self.staff, heads);
    }

    /// Keeps a roster, in place of the one before, which every further point is offered: a point at which it
    /// is allowed costs no more. The shifts are of the day.
    pub fn keep(&mut self, shifts: List<Shift>)
        requires sound { Each (IsSoundShift self.old.day) shifts }
        requires few { length shifts ≤ 64 }
        ensures { self.new ≡ record self.old { kept = shifts } }
    {
        self.kept = shifts;
    }

    /// Searches the next point, with at most so many turns, 1 to 10,000: what is found is what `search` finds
    /// on the day that [`Curve::instance`] returns afterwards, with this watch, and where the kept roster is
    /// allowed there it costs no more than that. `None` comes exactly after the last point. The graph is the
    /// day's; one graph serves all points.
    ///
    /// # Errors
    ///
    /// `Memory` where memory runs out; the same point is the next one then, and the master's count may
    /// have risen.
    pub fn next<M: Master, W: Watch>(
        &mut self,
        graph: &Graph,
        turns: u32,
        master: &mut M,
        watch: &mut W,
    ) -> Result<Option<Found>, Memory>
        requires graph { IsGraph self.old.day.grammar graph.now }
        requires some { 1 ≤ turns }
        requires few { turns ≤ 10000 }
        ensures point { MatchResult result (IsNextPoint self.old self.new (M.strict master.old)
            (W.patient watch.old) turns) (λ _. self.new ≡ self.old) }
        ensures falls { IfOk result (λ point. IfSome point (λ f. IsNoDearerThan (point_day self.new) self.old.kept
            f.cert.cost)) }
        ensures counted { IfOk result (λ point. IfSome point (AreCounted (point_day self.new)
            (M.refused master.old) (M.refused master.new))) }
        ensures rises { M.refused master.old ≤ M.refused master.new }
        ensures strict_stays { M.strict master.new ≡ M.strict master.old }
    {
        let heads = first_heads(&self.instance, self.staff) + self.given;
        if heads > self.most {
            return Ok(None);
        }
        let last = staff_most(&self.instance, self.staff);
        set_heads(self.alloc, &mut self.instance, self.staff, heads);
        let start = Start {
            shifts: self.kept.as_slice(),
            nodes: &[],
        };
        let task = SearchTask {
            day: Day {
                instance: &self.instance,
                graph,
            },
            turns,
            start,
        };
        let found = search_from(self.alloc, &task, &mut self.pool, master, watch);
        match found {
            Ok(found) => {
                self.given += 1;
                Ok(Some(found))
            }
            Err(fault) => {
                set_heads(self.alloc, &mut self.instance, self.staff, last);
                Err(fault)
            }
        }
    }
}
