//! The day that is made from a number.

ghost use Rattle.std.specs.Prelude.{ℕ, ◌≡◌, ◌≤◌, [], IfOk};
ghost use Rattle.model_rosters.specs.SoundInstance.{IsSoundInstance};
ghost use Rattle.model_made_days.specs.Made.{made_instance};
ghost use Rattle.text_reports.specs.SummaryText.{summary_text};
ghost use Rattle.command_searches.specs.Make.{AnswersMake, summary_of};
ghost use Rattle.command_searches.specs.Solve.{done_status, lent};
ghost use Rattle.command_searches.specs.Limits.{IsLimit};
ghost use Rattle.command_searches.specs.Writer.{IsWriter};

use crate::limit::Limit;
use crate::notes::note_unproved;
use crate::solve::{graph_refusal, status_of_done};
use crate::store::{ask_name, store_and_say};
use command_answers::{Answer, MEMORY, say_answer};
use command_shelf::Shelf;
use model_made_days::make_instance;
use model_rosters::{Instance, Memory};
use search_branch_price::{Master, Subject, Watch};
use search_days::{Solution, solve_day};
use std::alloc::Global;
use text_reports::{Summary, write_summary};

// Says the summary of what a search found on the day that is made from a number.
fn summary_answer(
    alloc: Global,
    number: u32,
    instance: &Instance,
    solution: &Solution,
) -> Result<Answer, Memory>
    requires { instance.now ≡ made_instance number }
    ensures { IfOk result (λ a. (a.status ≡ done_status solution.now.found.done)
        × (a.output ≡ summary_text (summary_of number solution.now.arcs solution.now.found))) }
{
    let found = &solution.found;
    let summary = Summary {
        number,
        periods: instance.grammar.periods,
        arcs: solution.arcs,
        done: found.done,
        cost: found.cert.cost,
        bound: found.cert.bound,
        processed: found.processed,
        failed: found.failed,
    };
    Ok(Answer {
        status: status_of_done(found.done),
        output: write_summary(alloc, &summary)?,
    })
}

// Searches the day that is made from a number.
fn solve_made<S: Shelf, M: Master, W: Watch>(
    alloc: Global,
    shelf: &mut S,
    number: u32,
    instance: &Instance,
    proof: &str,
    limit: Limit,
    master: &mut M,
    watch: &mut W,
) -> u8
    requires made { instance.now ≡ made_instance number }
    requires sound { IsSoundInstance instance.now }
    requires limit { IsLimit limit }
    ensures { IsWriter (AnswersMake number (lent (M.strict master.old) (M.refused master.old)
        (M.refused master.new)) limit) [] proof.now (S.told shelf.old) (S.told shelf.new)
        result }
{
    let limit_turns = limit.turns();
    let limit_seconds = limit.seconds();
    watch.begin(Subject::Make, limit_seconds);
    match solve_day(alloc, instance, limit_turns, master, watch) {
        Ok(solution) => {
            let answer = summary_answer(alloc, number, instance, &solution);
            let status = store_and_say(shelf, proof, solution.proof.as_slice(), answer);
            note_unproved(shelf, &solution.found.cert, status);
            status
        }
        Err(fault) => say_answer(shelf, graph_refusal(alloc, fault)),
    }
}

// Makes a day from a number and searches it.
fn make_asked<S: Shelf, M: Master, W: Watch>(
    alloc: Global,
    shelf: &mut S,
    number: u32,
    proof: &str,
    limit: Limit,
    master: &mut M,
    watch: &mut W,
) -> u8
    requires limit { IsLimit limit }
    ensures { IsWriter (AnswersMake number (lent (M.strict master.old) (M.refused master.old)
        (M.refused master.new)) limit) [] proof.now (S.told shelf.old) (S.told shelf.new)
        result }
{
    match make_instance(alloc, number) {
        Ok(instance) => solve_made(alloc, shelf, number, &instance, proof, limit, master, watch),
        Err(Memory) => MEMORY,
    }
}

/// Makes a day from a number, searches a roster of least cost for it within a limit, stores its certificate
/// under the name of the proof, and says a summary; or says that there are too many arcs. Where a text that
/// is no certificate stands under that name, the shelf refuses before the search; where it refuses the
/// certificate after the search, the summary is said all the same, with status 6.
pub fn make<S: Shelf, M: Master, W: Watch>(
    alloc: Global,
    shelf: &mut S,
    number: u32,
    proof: &str,
    limit: Limit,
    master: &mut M,
    watch: &mut W,
) -> u8
    requires limit { IsLimit limit }
    ensures { IsWriter (AnswersMake number (lent (M.strict master.old) (M.refused master.old)
        (M.refused master.new)) limit) [] proof.now (S.told shelf.old) (S.told shelf.new)
        result }
{
    match ask_name(shelf, proof) {
        Ok(()) => make_asked(alloc, shelf, number, proof, limit, master, watch),
        Err(status) => status,
    }
}
