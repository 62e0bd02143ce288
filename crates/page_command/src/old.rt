//! The shifts of an old text.

ghost use Rattle.std.specs.Prelude.{◌≡◌, ◌≢◌, ◌<◌, ◌≤◌, Err as Refused, IfOk, IfSome, length, position};
ghost use Rattle.model_rosters.specs.Folds.{Each};
ghost use Rattle.model_rosters.specs.SoundInstance.{IsSoundInstance};
ghost use Rattle.text_proof_pieces.specs.CertOf.{proof_of};
ghost use Rattle.check_values.specs.stated_rosters.RosterOf.{roster_of};
ghost use Rattle.page_views.specs.Draw.{IsOldRoster};
ghost use Rattle.page_command.specs.Old.{Reads, RefusedOld, is_wrong, of_proof, of_report, old_of, whole_of};

use crate::old_fault::{OldFault, fault_line};
use crate::refused::line_answer;
use crate::report::is_report;
use check_values::{RosterFault, read_roster};
use command_answers::Answer;
use model_rosters::{Instance, List, Memory, Shift};
use std::alloc::Global;
use text_certificates::{ProofFault, read_cert};

// Whether a shift's word has another length than a day of so many periods.
fn is_wrong(periods: u8, shift: &Shift) -> bool
    ensures { result ≡ is_wrong periods shift.now }
{
    shift.word.len() != periods as usize
}

// Returns the place of the first shift whose word has another length than the day.
fn first_wrong(periods: u8, shifts: &[Shift]) -> Option<usize>
    ensures place { result ≡ position (is_wrong periods) shifts.now }
    ensures within { IfSome result (λ place. place < length shifts.now) }
{
    shifts.iter().position(|shift| is_wrong(periods, shift))
}

// Returns shifts, if the word of each has a letter for each period of the day.
fn whole(instance: &Instance, shifts: List<Shift>) -> Result<List<Shift>, OldFault>
    requires { length shifts ≤ 64 }
    ensures value { result ≡ whole_of instance.now shifts }
    ensures same { IfOk result (λ ss. ss ≡ shifts) }
    ensures whole { IfOk result (Each (λ s. length s.word ≡ instance.now.grammar.periods)) }
{
    match first_wrong(instance.grammar.periods, shifts.as_slice()) {
        None => Ok(shifts),
        Some(place) => Err(OldFault::WrongLength {
            shift: place as u32 + 1,
        }),
    }
}

// Reads the shifts of an old certificate, which is not judged.
fn read_proof(alloc: Global, instance: &Instance, text: &[u8]) -> Result<List<Shift>, OldFault>
    requires { IsSoundInstance instance.now }
    ensures value { Reads result (of_proof instance.now (proof_of instance.now text.now)) }
    ensures sound { IfOk result (IsOldRoster instance.now) }
{
    match read_cert(alloc, instance, text) {
        Ok(cert) => whole(instance, cert.shifts),
        Err(ProofFault::Memory) => Err(OldFault::Memory),
        Err(fault) => Err(OldFault::Proof(fault)),
    }
}

// Reads the shifts of an old report.
fn read_report(alloc: Global, instance: &Instance, text: &[u8]) -> Result<List<Shift>, OldFault>
    requires { IsSoundInstance instance.now }
    ensures value { Reads result (of_report instance.now (roster_of instance.now text.now)) }
    ensures sound { IfOk result (IsOldRoster instance.now) }
{
    match read_roster(alloc, instance, text) {
        Ok(shifts) => whole(instance, shifts),
        Err(RosterFault::Memory) => Err(OldFault::Memory),
        Err(fault) => Err(OldFault::Report(fault)),
    }
}

/// Reads the shifts of an old text, a proof text or a report; whether they are an allowed roster is not
/// asked.
///
/// # Errors
///
/// The fault of the text, or that the word of a shift has another length than the day; `Memory` may come at
/// any time.
#[tactic(auto, unfolding(crate::specs::Old::old_of))]
pub(crate) fn read_old(
    alloc: Global,
    instance: &Instance,
    text: &[u8],
) -> Result<List<Shift>, OldFault>
    requires { IsSoundInstance instance.now }
    ensures value { Reads result (old_of instance.now text.now) }
    ensures sound { IfOk result (IsOldRoster instance.now) }
{
    if is_report(text) {
        read_report(alloc, instance, text)
    } else {
        read_proof(alloc, instance, text)
    }
}

/// Says why an old text is refused. A fault of the proof text or the report that is shown comes first.
///
/// # Errors
///
/// `Memory` where memory runs out, or where that is the fault; there is no answer then.
pub(crate) fn refused_old(
    alloc: Global,
    instance: &Instance,
    text: &[u8],
    old: &[u8],
    fault: OldFault,
) -> Result<Answer, Memory>
    requires sound { IsSoundInstance instance.now }
    requires fault { fault ≢ OldFault.Memory → old_of instance.now old.now ≡ Refused fault }
    ensures { IfOk result (λ a. RefusedOld old.now instance.now text.now a.status a.output) }
{
    match fault {
        OldFault::Memory => Err(Memory),
        _ => {
            let line = fault_line(alloc, &fault)?;
            line_answer(alloc, instance, text, line.as_slice())
        }
    }
}
