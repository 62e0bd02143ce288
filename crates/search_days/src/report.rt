//! The report of what a search found.

ghost use Rattle.std.specs.Prelude.{IfOk, IfSome};
ghost use Rattle.check_certificates.specs.certificate_laws.Accepted.{IsStated};
ghost use Rattle.check_certificates.specs.Sound.{IsSoundCert};
ghost use Rattle.model_rosters.specs.SoundInstance.{IsSoundInstance};
ghost use Rattle.search_days.specs.Solutions.{IsReportText};

use model_rosters::{Instance, List, Memory};
use search_branch_price::Found;
use std::alloc::Global;
use text_reports::{report_of, write_report};

/// Writes the report of what a search found on a day: of a sound certificate whose roster, if it has one, is
/// an allowed one of the stated prices and cost.
///
/// # Errors
///
/// `Memory` where memory runs out; there is no text then.
pub fn solution_report(
    alloc: Global,
    instance: &Instance,
    found: &Found,
) -> Result<List<u8>, Memory>
    requires sound { IsSoundInstance instance.now }
    requires cert { IsSoundCert instance.now found.now.cert }
    requires stated { IfSome found.now.cert.cost (IsStated instance.now found.now.cert.shifts) }
    ensures { IfOk result (IsReportText instance.now found.now) }
{
    let report = report_of(
        alloc,
        instance,
        &found.cert,
        found.done,
        found.processed,
        found.failed,
    )?;
    write_report(alloc, instance, &report)
}
