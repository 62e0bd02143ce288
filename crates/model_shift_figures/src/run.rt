//! Runs of shortage and of surplus.

ghost use Rattle.std.specs.Prelude.{◌≡◌, ◌≤◌, ◌+◌, ◌^◌, ◌++◌, IfOk, IfSome, OnOk};
ghost use Rattle.model_shift_figures.specs.Runs.{AreDayLacks, ended, extended, grown, is_part, joins, last_run, next_open, runs_of, started};

use model_rosters::{List, Memory};
use std::alloc::Global;

/// How many employees are missing in one period of a code, or are there beyond the need, and what this costs.
#[derive(Clone, Copy, Debug, PartialEq, Eq, Drop)]
pub struct Lack {
    /// The position of the code in the grammar's `codes`.
    pub code: u8,
    /// The period, from 1.
    pub period: u8,
    /// How many employees these are.
    pub count: u32,
    /// What they cost.
    pub cost: u64,
}

/// Periods in a row in which the same number of employees is missing, or is there beyond the need.
#[derive(Clone, Copy, Debug, PartialEq, Eq, Drop)]
pub struct Run {
    /// The position of the code in the grammar's `codes`.
    pub code: u8,
    /// The first period, from 1.
    pub first: u8,
    /// The last period, not before the first.
    pub last: u8,
    /// How many employees these are in each of the periods, at least 1.
    pub count: u32,
    /// What they cost in all periods.
    pub cost: u64,
}

// Whether a further period belongs to the run: it follows, and its number is the same.
fn joins(run: Run, lack: &Lack) -> bool
    ensures { result ≡ joins run lack.now }
{
    run.code == lack.code && run.last as u32 + 1 == lack.period as u32 && run.count == lack.count
}

// Returns the run that a period begins.
fn started(lack: &Lack) -> Run
    ensures { result ≡ started lack.now }
{
    Run {
        code: lack.code,
        first: lack.period,
        last: lack.period,
        count: lack.count,
        cost: lack.cost,
    }
}

// Returns the run with a further period.
fn extended(run: Run, lack: &Lack) -> Run
    requires run { run.cost ≤ 2 ^ 40 }
    requires lack { lack.now.cost ≤ 1280000 }
    ensures { result ≡ extended run lack.now }
{
    Run {
        code: run.code,
        first: run.first,
        last: lack.period,
        count: run.count,
        cost: run.cost + lack.cost,
    }
}

// Returns the run to which a period belongs that has a number.
#[tactic(auto, unfolding(crate::specs::Runs::grown))]
fn grown(live: Option<Run>, lack: &Lack) -> Run
    requires run { IfSome live (λ r. r.cost ≤ 2 ^ 40) }
    requires lack { lack.now.cost ≤ 1280000 }
    ensures { result ≡ grown live lack.now }
{
    match live {
        None => started(lack),
        Some(run) if joins(run, lack) => extended(run, lack),
        Some(_) => started(lack),
    }
}

// Returns the run that is open behind a further period.
#[tactic(auto, unfolding(crate::specs::Runs::next_open))]
fn next_open(live: Option<Run>, lack: &Lack) -> Option<Run>
    requires run { IfSome live (λ r. r.cost ≤ 2 ^ 40) }
    requires lack { lack.now.cost ≤ 1280000 }
    ensures { result ≡ next_open live lack.now }
{
    if lack.count == 0 {
        None
    } else {
        Some(grown(live, lack))
    }
}

// Whether a further period belongs to the run, and has a number.
fn is_part(run: Run, lack: &Lack) -> bool
    ensures { result ≡ is_part run lack.now }
{
    lack.count > 0 && joins(run, lack)
}

// Appends the open run where a further period ends it.
#[tactic(auto, unfolding(crate::specs::Runs::ended))]
fn end(runs: &mut List<Run>, live: Option<Run>, lack: &Lack) -> Result<(), Memory>
    ensures { OnOk result (runs.new ≡ runs.old ++ ended live lack.now) }
{
    let Some(run) = live else {
        return Ok(());
    };
    if is_part(run, lack) {
        return Ok(());
    }
    runs.push(run)
}

// Appends the run that is still open.
fn last_run(runs: &mut List<Run>, live: Option<Run>) -> Result<(), Memory>
    ensures { OnOk result (runs.new ≡ runs.old ++ last_run live) }
{
    match live {
        None => Ok(()),
        Some(run) => runs.push(run),
    }
}

/// Returns the runs of a day's periods, of which those of a code stand in their order one after another:
/// periods in a row with the same number of employees are one run, and periods without any belong to none.
///
/// # Errors
///
/// `Memory` where memory runs out; nothing is kept then.
pub fn runs_of(alloc: Global, lacks: &[Lack]) -> Result<List<Run>, Memory>
    requires { AreDayLacks lacks.now }
    ensures { IfOk result (λ runs. runs ≡ runs_of lacks.now) }
{
    let mut runs = List::new(alloc);
    let mut live: Option<Run> = None;
    for lack in lacks {
        end(&mut runs, live, lack)?;
        live = next_open(live, lack);
    }
    last_run(&mut runs, live)?;
    Ok(runs)
}
