//! A calendar from a date on, and what is said of it.

ghost use Rattle.std.specs.Prelude.{[], ◌∷◌, IfOk};
ghost use Rattle.model_rosters.specs.SoundInstance.{IsSoundInstance};
ghost use Rattle.command_answers.specs.Reader.{IsReader};
ghost use Rattle.page_command.specs.Dated.{
  AnswersDated,
  AnswersDatedLabels,
  AnswersDatedTexts,
  CalendarAnswers,
  ClockAnswers,
};

use crate::asking::ask_texts;
use crate::judgement::judgement;
use crate::limits::MOST_LABELS;
use crate::refused::{line_answer, refused_labels};
use crate::remarks::dated_remark;
use command_answers::{Answer, MOST_DEMAND, MOST_PROOF, MOST_RULES, Question, fetched};
use command_shelf::Shelf;
use model_rosters::{Instance, Memory};
use page_csv::Setting;
use page_labels::{Labels, read_labels};
use page_views::{CalendarDay, DayEvents, Kind};
use std::alloc::Global;

// What is said where labels tell no clock.
const NO_CLOCK: &[u8] = b"labels: no clock line\n";

// What is answered to a proof text or a report under labels.
fn clock_answer(
    alloc: Global,
    instance: &Instance,
    text: &[u8],
    labels: &Labels,
    day: CalendarDay,
) -> Result<Answer, Memory>
    requires { IsSoundInstance instance.now }
    ensures { IfOk result (λ a. ClockAnswers day labels.now instance.now text.now a.status a.output) }
{
    match labels.clock {
        None => line_answer(alloc, instance, text, NO_CLOCK),
        Some(clock) => {
            let setting = Setting {
                date: day.date,
                clock,
            };
            let shift = day.shift;
            let kind = Kind::Calendar(DayEvents { setting, shift });
            judgement(alloc, kind, instance, labels, None, text)
        }
    }
}

// The day of a calendar and its labels text.
#[derive(Drop)]
struct Dated<'a> {
    day: CalendarDay,
    labels: &'a [u8],
}

// What is answered to a proof text or a report.
fn calendar_answer(
    alloc: Global,
    instance: &Instance,
    text: &[u8],
    dated: &Dated<'_>,
) -> Result<Answer, Memory>
    requires { IsSoundInstance instance.now }
    ensures { IfOk result (λ a. CalendarAnswers dated.now.day dated.now.labels.now instance.now text.now
        a.status a.output) }
{
    match read_labels(alloc, instance, dated.labels) {
        Ok(labels) => clock_answer(alloc, instance, text, &labels, dated.day),
        Err(fault) => refused_labels(alloc, instance, text, dated.labels, fault),
    }
}

impl<'a> Question for Dated<'a> {
    ghost use Rattle.page_command.specs.Dated.{CalendarAnswers};
    ghost use Rattle.page_command.specs.Statuses.{calendar-ends};
    ghost use Rattle.page_command.specs.DatedFronts.{calendar-fronts};

    ghost answers = { λ q. CalendarAnswers q.day q.labels.now };

    ghost limit = { λ _. 1073741824 };

    ghost ends = { λ q. calendar-ends q.day q.labels.now };

    ghost fronts = { λ q. calendar-fronts q.day q.labels.now };

    // A proof text has at most so many bytes, and a report has no more.
    fn most(&self) -> usize {
        MOST_PROOF
    }

    // Says the calendar of the roster, or why there is none.
    fn answer(&self, alloc: Global, instance: &Instance, text: &[u8]) -> Result<Answer, Memory> {
        calendar_answer(alloc, instance, text, self)
    }

    // Tells what is wrong with a text that is refused.
    fn remark(
        &self,
        alloc: Global,
        instance: &Instance,
        text: &[u8],
        status: u8,
    ) -> Option<String> {
        dated_remark(alloc, instance, self.labels, text, status)
    }
}

// Says the calendar by a day, a rules text and a labels text, and the demand and proof texts under names.
fn draw_dated_texts<S: Shelf>(
    alloc: Global,
    shelf: &mut S,
    day: CalendarDay,
    rules: &[u8],
    labels: &[u8],
    demand: &str,
    proof: &str,
) -> u8
    ensures { IsReader (AnswersDatedTexts day (S.told shelf.old).held rules.now labels.now demand.now
        proof.now)
        (demand.now ∷ proof.now ∷ []) (S.told shelf.old) (S.told shelf.new) result }
{
    match fetched(alloc, shelf, demand, MOST_DEMAND) {
        Ok(text) => {
            let demand = text.as_slice();
            let dated = Dated { day, labels };
            ask_texts(alloc, shelf, rules, demand, proof, Some(labels), &dated)
        }
        Err(status) => status,
    }
}

// The same, where the labels text is still to be fetched.
fn draw_dated_labels<S: Shelf>(
    alloc: Global,
    shelf: &mut S,
    day: CalendarDay,
    rules: &[u8],
    demand: &str,
    proof: &str,
    labels: &str,
) -> u8
    ensures { IsReader (AnswersDatedLabels day (S.told shelf.old).held rules.now demand.now proof.now
        labels.now)
        (labels.now ∷ demand.now ∷ proof.now ∷ []) (S.told shelf.old) (S.told shelf.new) result }
{
    match fetched(alloc, shelf, labels, MOST_LABELS) {
        Ok(text) => draw_dated_texts(alloc, shelf, day, rules, text.as_slice(), demand, proof),
        Err(status) => status,
    }
}

/// Says the calendar of a roster on a day and under labels, by the rules, demand, proof and labels texts
/// under names, or why a text or the roster is refused. The rules text is fetched first, then the labels
/// text, the demand text and the proof text; a fault of the labels text, or that it tells no clock, comes
/// last.
pub fn draw_dated<S: Shelf>(
    alloc: Global,
    shelf: &mut S,
    day: CalendarDay,
    rules: &str,
    demand: &str,
    proof: &str,
    labels: &str,
) -> u8
    ensures { IsReader (AnswersDated day (S.told shelf.old).held rules.now demand.now proof.now labels.now)
        (rules.now ∷ labels.now ∷ demand.now ∷ proof.now ∷ []) (S.told shelf.old) (S.told shelf.new) result }
{
    match fetched(alloc, shelf, rules, MOST_RULES) {
        Ok(text) => draw_dated_labels(alloc, shelf, day, text.as_slice(), demand, proof, labels),
        Err(status) => status,
    }
}
