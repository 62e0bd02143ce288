//! What a roster comes to.

ghost use Rattle.std.specs.Prelude.{◌≡◌, ◌≢◌, [], ◌∷◌, IfOk};
ghost use Rattle.model_rosters.specs.SoundInstance.{IsSoundInstance};
ghost use Rattle.check_values.specs.Answers.{StatedAnswer};
ghost use Rattle.check_values.specs.stated_rosters.FaultLine as roster_line;
ghost use Rattle.check_values.specs.stated_rosters.RosterOf.{IsSoundRoster};
ghost use Rattle.command_answers.specs.Reader.{IsReader};
ghost use Rattle.command_answers.specs.TextCommands.{TextCommand};
ghost use Rattle.command_texts.specs.what_if.Value.{Valuation};

use crate::what_if::limits::MOST_ROSTER;
use crate::what_if::wrong::roster_remark;
use check_values::{RosterFault, fault_line, read_roster, stated_answer};
use command_answers::{Answer, Question, ask};
use command_shelf::Shelf;
use model_rosters::{Instance, Memory, Shift};
use std::alloc::Global;

/// Says why a roster text is refused.
///
/// # Errors
///
/// `Memory` where memory ran out, then or before.
pub fn roster_refusal(alloc: Global, fault: RosterFault) -> Result<Answer, Memory>
    ensures { IfOk result (λ a. (fault ≢ RosterFault.Memory) × (a.status ≡ 5)
        × (a.output ≡ roster_line.fault_line fault)) }
{
    match fault {
        RosterFault::Memory => Err(Memory),
        _ => Ok(Answer {
            status: 5,
            output: fault_line(alloc, &fault)?,
        }),
    }
}

/// Says what a roster comes to.
///
/// # Errors
///
/// `Memory` where memory runs out; there is no answer then.
pub fn value_of(alloc: Global, instance: &Instance, shifts: &[Shift]) -> Result<Answer, Memory>
    requires sound { IsSoundInstance instance.now }
    requires shifts { IsSoundRoster instance.now shifts.now }
    ensures { IfOk result (λ a. StatedAnswer instance.now shifts.now a.status a.output) }
{
    match stated_answer(alloc, instance, shifts) {
        Ok(answer) => Ok(Answer {
            status: answer.status,
            output: answer.output,
        }),
        Err(Memory) => Err(Memory),
    }
}

// Says what the roster of a text comes to, or why the text is refused.
fn valuation(alloc: Global, instance: &Instance, text: &[u8]) -> Result<Answer, Memory>
    requires { IsSoundInstance instance.now }
    ensures { IfOk result (λ a. Valuation instance.now text.now a.status a.output) }
{
    match read_roster(alloc, instance, text) {
        Ok(shifts) => value_of(alloc, instance, shifts.as_slice()),
        Err(fault) => roster_refusal(alloc, fault),
    }
}

// What a roster comes to.
struct StatedValue;

impl Question for StatedValue {
    ghost use Rattle.command_texts.specs.what_if.Statuses.{value-ends};
    ghost use Rattle.command_texts.specs.what_if.Value.{Valuation};
    ghost use Rattle.command_texts.specs.what_if.Fronts.{value-fronts};

    ghost answers = { λ _. Valuation };

    ghost limit = { λ _. 1048576 };

    ghost ends = { λ _. value-ends };

    ghost fronts = { λ _. value-fronts };

    // A roster text has at most so many bytes.
    fn most(&self) -> usize {
        MOST_ROSTER
    }

    // Says what the roster that the text states comes to.
    fn answer(&self, alloc: Global, instance: &Instance, text: &[u8]) -> Result<Answer, Memory> {
        valuation(alloc, instance, text)
    }

    // Tells what is wrong with a text that is refused, and of a comment in a word.
    fn remark(
        &self,
        alloc: Global,
        instance: &Instance,
        text: &[u8],
        status: u8,
    ) -> Option<String> {
        roster_remark(alloc, instance, text, status)
    }
}

/// Says what a roster comes to by the rules, demand and roster texts under names: what it costs, or all
/// causes for which it is not allowed, or why a text is refused. The texts are fetched and read in this
/// order.
pub fn value<S: Shelf>(alloc: Global, shelf: &mut S, rules: &str, demand: &str, roster: &str) -> u8
    ensures { IsReader (TextCommand Valuation (S.told shelf.old).held rules.now demand.now roster.now)
        (rules.now ∷ demand.now ∷ roster.now ∷ []) (S.told shelf.old) (S.told shelf.new) result }
{
    ask(alloc, shelf, rules, demand, roster, &StatedValue)
}
