//! What remains beside kept shifts.

ghost use Rattle.std.specs.Prelude.{[], ◌∷◌, IfOk};
ghost use Rattle.check_values.specs.remaining_day.Answers.{IsRemaining, RestAnswer};
ghost use Rattle.model_rosters.specs.SoundInstance.{IsSoundInstance};
ghost use Rattle.check_values.specs.stated_rosters.RosterOf.{IsSoundRoster};
ghost use Rattle.command_answers.specs.Reader.{IsReader};
ghost use Rattle.command_answers.specs.TextCommands.{TextCommand};
ghost use Rattle.command_texts.specs.what_if.Rest.{Resting};

use crate::what_if::gone::gone_note;
use crate::what_if::limits::MOST_ROSTER;
use crate::what_if::value::roster_refusal;
use crate::what_if::wrong::{both, roster_remark};
use check_values::{Remaining, read_roster, remaining, rest_status, write_remaining};
use command_answers::{Answer, Question, ask};
use command_shelf::Shelf;
use model_rosters::{Instance, Memory, Shift};
use std::alloc::Global;

// Says what remains of a day beside kept shifts, as it was found.
fn told(
    alloc: Global,
    instance: &Instance,
    kept: &[Shift],
    left: &Remaining,
) -> Result<Answer, Memory>
    requires { IsRemaining instance.now kept.now left.now }
    ensures { IfOk result (λ a. RestAnswer instance.now kept.now a.status a.output) }
{
    let output = write_remaining(alloc, instance, kept, left)?;
    Ok(Answer {
        status: rest_status(left),
        output,
    })
}

// Says what remains of a day beside kept shifts.
fn rest_of(alloc: Global, instance: &Instance, kept: &[Shift]) -> Result<Answer, Memory>
    requires sound { IsSoundInstance instance.now }
    requires shifts { IsSoundRoster instance.now kept.now }
    ensures { IfOk result (λ a. RestAnswer instance.now kept.now a.status a.output) }
{
    let left = remaining(alloc, instance, kept)?;
    told(alloc, instance, kept, &left)
}

// Says what remains beside the shifts of a text, or why the text is refused.
fn resting(alloc: Global, instance: &Instance, text: &[u8]) -> Result<Answer, Memory>
    requires { IsSoundInstance instance.now }
    ensures { IfOk result (λ a. Resting instance.now text.now a.status a.output) }
{
    match read_roster(alloc, instance, text) {
        Ok(kept) => rest_of(alloc, instance, kept.as_slice()),
        Err(fault) => roster_refusal(alloc, fault),
    }
}

// What remains of a day.
struct KeptShifts;

impl Question for KeptShifts {
    ghost use Rattle.command_texts.specs.what_if.Statuses.{resting-ends};
    ghost use Rattle.command_texts.specs.what_if.Rest.{Resting};
    ghost use Rattle.command_texts.specs.what_if.Fronts.{resting-fronts};

    ghost answers = { λ _. Resting };

    ghost limit = { λ _. 1048576 };

    ghost ends = { λ _. resting-ends };

    ghost fronts = { λ _. resting-fronts };

    // A roster text has at most so many bytes.
    fn most(&self) -> usize {
        MOST_ROSTER
    }

    // Says what remains of the day beside the roster that the text states.
    fn answer(&self, alloc: Global, instance: &Instance, text: &[u8]) -> Result<Answer, Memory> {
        resting(alloc, instance, text)
    }

    // Tells what is wrong with a text that is refused, of a comment in a word, and of shifts that are gone
    // from a report.
    fn remark(
        &self,
        alloc: Global,
        instance: &Instance,
        text: &[u8],
        status: u8,
    ) -> Option<String> {
        let remark = roster_remark(alloc, instance, text, status);
        match status {
            0 | 1 => both(remark, gone_note(alloc, instance, text)),
            _ => remark,
        }
    }
}

/// Says the demand that remains where the shifts of a roster are kept, by the rules, demand and roster texts
/// under names; or that nobody is left, or all causes for which no roster has these shifts; or why a text is
/// refused. The texts are fetched and read in this order.
pub fn rest<S: Shelf>(alloc: Global, shelf: &mut S, rules: &str, demand: &str, roster: &str) -> u8
    ensures { IsReader (TextCommand Resting (S.told shelf.old).held rules.now demand.now roster.now)
        (rules.now ∷ demand.now ∷ roster.now ∷ []) (S.told shelf.old) (S.told shelf.new) result }
{
    ask(alloc, shelf, rules, demand, roster, &KeptShifts)
}
