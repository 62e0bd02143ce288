//! The report of a certificate.

ghost use Rattle.std.specs.Prelude.{◌≡◌, ◌+◌, [], None, IfOk, IfSome, OnOk};
ghost use Rattle.check_certificates.specs.certificate_laws.Accepted.{IsStated};
ghost use Rattle.check_certificates.specs.Sound.{IsSoundCert};
ghost use Rattle.model_rosters.specs.SoundInstance.{IsSoundInstance};
ghost use Rattle.text_reports.specs.Reports.{IsReport, IsOfRoster, HasSoundShifts};
ghost use Rattle.text_reports.specs.Writable.{IsWritable};

use crate::cover::{Cover, add_covers};
use crate::shifts::{add_shifts, paid};
use check_certificates::Cert;
use model_rosters::{Done, Instance, List, Memory, Shift};
use std::alloc::Global;

/// What a search found: a roster with its cost and its cover, and a bound on the cost of every
/// allowed roster.
#[derive(Debug, PartialEq, Eq, Drop)]
pub struct Report {
    /// How the search ended.
    pub done: Done,
    /// What the roster costs, or none where there is no roster.
    pub cost: Option<u64>,
    /// The bound; none says that no roster is allowed.
    pub bound: Option<u64>,
    /// How many nodes the search processed.
    pub processed: u32,
    /// How many of them it split without prices.
    pub failed: u32,
    /// The shifts of the roster.
    pub shifts: List<Shift>,
    /// The sum of the shifts' prices, or 0 where there is no roster.
    pub paid: u64,
    /// The sum of the cells' penalties, or 0 where there is no roster.
    pub penalty: u64,
    /// How each cell is covered, in the order of the cells; nothing where there is no roster.
    pub cover: List<Cover>,
}

// Returns the report without a roster.
fn without_roster(alloc: Global, cert: &Cert, done: Done, processed: u32, failed: u32) -> Report
    ensures { result ≡ record {
      done = done;
      cost = cert.now.cost;
      bound = cert.now.bound;
      processed = processed;
      failed = failed;
      shifts = [];
      paid = 0;
      penalty = 0;
      cover = [];
    } }
{
    Report {
        done,
        cost: cert.cost,
        bound: cert.bound,
        processed,
        failed,
        shifts: List::new(alloc),
        paid: 0,
        penalty: 0,
        cover: List::new(alloc),
    }
}

// Adds a roster of this cost to a report without one. What is not paid for the shifts is the
// penalties.
fn add_roster(
    alloc: Global,
    report: &mut Report,
    instance: &Instance,
    shifts: &[Shift],
    cost: u64,
) -> Result<(), Memory>
    requires sound { IsSoundInstance instance.now }
    requires shifts { HasSoundShifts instance.now shifts.now }
    requires stated { IsStated instance.now shifts.now cost }
    requires no_shift { report.old.shifts ≡ [] }
    requires no_cover { report.old.cover ≡ [] }
    ensures roster { OnOk result (IsOfRoster instance.now shifts.now report.new) }
    ensures kept { report.new ≡ record report.old {
      shifts = report.new.shifts;
      paid = report.new.paid;
      penalty = report.new.penalty;
      cover = report.new.cover;
    } }
    ensures total { report.new.paid + report.new.penalty ≡ cost }
{
    report.paid = paid(shifts);
    report.penalty = cost - report.paid;
    add_shifts(alloc, &mut report.shifts, shifts)?;
    let cells = instance.cells.as_slice();
    add_covers(&mut report.cover, &instance.grammar, cells, shifts)
}

/// Returns the report of a certificate whose roster is an allowed one of the stated prices and cost:
/// its numbers, and where there is a roster its shifts, what they cost, the penalties, and the cover
/// of each cell. How the search ended, and how many nodes it processed and split without prices, are
/// as they are given.
///
/// # Errors
///
/// `Memory` where memory runs out; nothing is kept then.
pub fn report_of(
    alloc: Global,
    instance: &Instance,
    cert: &Cert,
    done: Done,
    processed: u32,
    failed: u32,
) -> Result<Report, Memory>
    requires sound { IsSoundInstance instance.now }
    requires cert { IsSoundCert instance.now cert.now }
    requires stated { IfSome cert.now.cost (IsStated instance.now cert.now.shifts) }
    ensures report { IfOk result (IsReport instance.now cert.now done processed failed) }
    ensures total { IfOk result (λ r. IfSome r.cost (λ cost. r.paid + r.penalty ≡ cost)) }
    ensures writable { IfOk result (IsWritable instance.now) }
{
    let mut report = without_roster(alloc, cert, done, processed, failed);
    if let Some(cost) = cert.cost {
        add_roster(alloc, &mut report, instance, cert.shifts.as_slice(), cost)?;
    }
    Ok(report)
}
