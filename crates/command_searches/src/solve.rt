//! A day, solved.

ghost use Rattle.std.specs.Prelude.{ℕ, ◌≡◌, ◌≢◌, ◌≤◌, [], ◌∷◌, Bool, IfErr, IfOk, IfSome};
ghost use Rattle.std.specs.Option.{option_copied};
ghost use Rattle.model_rosters.specs.Sound.{IsPlain, IsSound};
ghost use Rattle.model_rosters.specs.SoundInstance.{IsSoundInstance};
ghost use Rattle.tree_graph.specs.Graphs.{IsRefused};
ghost use Rattle.search_branch_price.specs.Found.{IsFound};
ghost use Rattle.check_certificates.specs.Sound.{IsSoundCert};
ghost use Rattle.search_days.specs.Solutions.{IsDaySolved, IsReportText};
ghost use Rattle.command_searches.specs.Solve.{
  AnswersSolveDemand,
  AnswersSolveProof,
  SaysTooManyArcs,
  SolvesDemand,
  SolvesFrom,
  SolvesProof,
  SolvesRules,
  Solving,
  arcs_line,
  done_status,
  from_names,
  lent,
  old_shifts,
};
ghost use Rattle.command_searches.specs.SolveAnswers.{SolveAnswers};
ghost use Rattle.command_searches.specs.Limits.{IsLimit};
ghost use Rattle.command_searches.specs.Writer.{IsWriter};

use crate::from::{from_note, note_passed};
use crate::limit::Limit;
use crate::notes::note_search;
use crate::reuse::text_refusal;
use crate::store::{ask_name, store_and_say};
use check_certificates::Cert;
use command_answers::{
    Answer, MOST_DEMAND, MOST_PROOF, MOST_RULES, demand_refusal, fetched, rules_refusal,
    say_answer, say_remarked,
};
use command_shelf::Shelf;
use command_texts::findings::note_day;
use model_rosters::{Grammar, Instance, List, Memory};
use search_branch_price::{Done, Found, Master, Subject, Watch};
use search_days::{Solution, solution_report, solve_day, solve_day_from};
use std::alloc::Global;
use text_demand::read_demand;
use text_fault_notes::{demand_note, rules_note};
use text_lines::{put, write_number};
use text_old_shifts::read_from;
use text_rules::read_rules;
use tree_graph::GraphFault;

/// Returns the status of a search that ended so.
pub fn status_of_done(done: Done) -> u8
    ensures { result ≡ done_status done }
{
    match done {
        Done::Equal => 0,
        Done::NoRoster => 1,
        Done::TurnsOut => 8,
    }
}

// Writes the line of an instance with too many arcs.
fn arcs_line(alloc: Global, count: u64) -> Result<List<u8>, Memory>
    ensures { IfOk result (λ line. line ≡ arcs_line count) }
{
    let mut out = List::new(alloc);
    put(&mut out, b"graph: ")?;
    write_number(&mut out, count as i128)?;
    put(&mut out, b" arcs, at most 100000\n")?;
    Ok(out)
}

/// Says that an instance has too many arcs.
///
/// # Errors
///
/// `Memory` where memory runs out, or where that is the fault; there is no answer then.
pub fn graph_refusal(alloc: Global, fault: GraphFault) -> Result<Answer, Memory>
    ensures { IfOk result (λ a. (a.status ≡ 9) × ((g : Grammar) → IsRefused g fault
        → SaysTooManyArcs g a.output)) }
{
    match fault {
        GraphFault::TooManyArcs { count } => Ok(Answer {
            status: 9,
            output: arcs_line(alloc, count)?,
        }),
        GraphFault::Memory => Err(Memory),
    }
}

// Says the report of what a search found.
fn report_answer(alloc: Global, instance: &Instance, found: &Found) -> Result<Answer, Memory>
    requires sound { IsSoundInstance instance.now }
    requires found { (strict : Bool) × (limit : ℕ) × IsFound instance.now strict limit found.now }
    ensures { IfOk result (λ a. (a.status ≡ done_status found.now.done)
        × IsReportText instance.now found.now a.output) }
{
    Ok(Answer {
        status: status_of_done(found.done),
        output: solution_report(alloc, instance, found)?,
    })
}

// Searches an instance, from an old certificate where there is one.
fn searched<M: Master, W: Watch>(
    alloc: Global,
    instance: &Instance,
    turns: u32,
    old: Option<&Cert>,
    master: &mut M,
    watch: &mut W,
) -> Result<Solution, GraphFault>
    requires sound { IsSoundInstance instance.now }
    requires some { 1 ≤ turns }
    requires few { turns ≤ 10000 }
    requires old { IfSome (option_copied old) (IsSoundCert instance.now) }
    ensures solution { IfOk result (IsDaySolved instance.now turns (old_shifts (option_copied old.entry))
        (W.patient watch.old) (M.strict master.old) (M.refused master.old) (M.refused master.new)) }
    ensures refused { IfErr result (IsRefused instance.now.grammar) }
{
    match old {
        Some(cert) => solve_day_from(alloc, instance, turns, cert, master, watch),
        None => solve_day(alloc, instance, turns, master, watch),
    }
}

// Searches an instance, whose demand text this is, from an old certificate where there is one, stores the
// certificate under a name, and says the report.
fn solve_instance<S: Shelf, M: Master, W: Watch>(
    alloc: Global,
    shelf: &mut S,
    demand: &[u8],
    instance: &Instance,
    old: Option<&Cert>,
    proof: &str,
    limit: Limit,
    master: &mut M,
    watch: &mut W,
) -> u8
    requires sound { IsSoundInstance instance.now }
    requires old { IfSome (option_copied old) (IsSoundCert instance.now) }
    requires limit { IsLimit limit }
    ensures { IsWriter (Solving instance.now (option_copied old.entry) (lent (M.strict master.old)
        (M.refused master.old) (M.refused master.new)) limit) [] proof.now (S.told shelf.old)
        (S.told shelf.new) result }
{
    let limit_turns = limit.turns();
    let limit_seconds = limit.seconds();
    watch.begin(Subject::Solve, limit_seconds);
    match searched(alloc, instance, limit_turns, old, master, watch) {
        Ok(solution) => {
            let answer = report_answer(alloc, instance, &solution.found);
            let status = store_and_say(shelf, proof, solution.proof.as_slice(), answer);
            note_search(alloc, shelf, demand, instance, &solution.found.cert, status);
            status
        }
        Err(fault) => say_answer(shelf, graph_refusal(alloc, fault)),
    }
}

// Searches an instance as `solve_instance` does, once the shelf has said that the certificate may be stored.
fn solve_asked<S: Shelf, M: Master, W: Watch>(
    alloc: Global,
    shelf: &mut S,
    demand: &[u8],
    instance: &Instance,
    old: Option<&Cert>,
    proof: &str,
    limit: Limit,
    master: &mut M,
    watch: &mut W,
) -> u8
    requires sound { IsSoundInstance instance.now }
    requires old { IfSome (option_copied old) (IsSoundCert instance.now) }
    requires limit { IsLimit limit }
    ensures { IsWriter (Solving instance.now (option_copied old.entry) (lent (M.strict master.old)
        (M.refused master.old) (M.refused master.new)) limit) [] proof.now (S.told shelf.old)
        (S.told shelf.new) result }
{
    match ask_name(shelf, proof) {
        Ok(()) => solve_instance(
            alloc, shelf, demand, instance, old, proof, limit, master, watch,
        ),
        Err(status) => status,
    }
}

// Solves an instance from what an old text says: a certificate of the day, or the shifts of another one.
fn solve_proof_text<S: Shelf, M: Master, W: Watch>(
    alloc: Global,
    shelf: &mut S,
    demand: &[u8],
    instance: &Instance,
    text: &[u8],
    proof: &str,
    limit: Limit,
    master: &mut M,
    watch: &mut W,
) -> u8
    requires sound { IsSoundInstance instance.now }
    requires limit { IsLimit limit }
    ensures { IsWriter (SolvesProof instance.now text.now (lent (M.strict master.old) (M.refused master.old)
        (M.refused master.new)) limit) [] proof.now (S.told shelf.old) (S.told shelf.new) result }
{
    match read_from(alloc, instance, text) {
        Ok(cert) => {
            note_passed(alloc, shelf, instance, text);
            solve_asked(
                alloc,
                shelf,
                demand,
                instance,
                Some(&cert),
                proof,
                limit,
                master,
                watch,
            )
        }
        Err(fault) => {
            let note = from_note(alloc, instance, text, fault);
            say_remarked(shelf, text, text_refusal(alloc, fault), note)
        }
    }
}

// Solves an instance from the old text under a name.
fn solve_proof<S: Shelf, M: Master, W: Watch>(
    alloc: Global,
    shelf: &mut S,
    demand: &[u8],
    instance: &Instance,
    from: &str,
    proof: &str,
    limit: Limit,
    master: &mut M,
    watch: &mut W,
) -> u8
    requires sound { IsSoundInstance instance.now }
    requires limit { IsLimit limit }
    ensures { IsWriter (AnswersSolveProof (S.told shelf.old).held instance.now from.now
        (lent (M.strict master.old) (M.refused master.old) (M.refused master.new)) limit)
        (from.now ∷ []) proof.now (S.told shelf.old) (S.told shelf.new) result }
{
    match fetched(alloc, shelf, from, MOST_PROOF) {
        Ok(text) => solve_proof_text(
            alloc,
            shelf,
            demand,
            instance,
            text.as_slice(),
            proof,
            limit,
            master,
            watch,
        ),
        Err(status) => status,
    }
}

// Solves an instance, from the old text under a name where one is said.
fn solve_from<S: Shelf, M: Master, W: Watch>(
    alloc: Global,
    shelf: &mut S,
    demand: &[u8],
    instance: &Instance,
    from: Option<&str>,
    proof: &str,
    limit: Limit,
    master: &mut M,
    watch: &mut W,
) -> u8
    requires sound { IsSoundInstance instance.now }
    requires limit { IsLimit limit }
    ensures { IsWriter (SolvesFrom (S.told shelf.old).held instance.now (option_copied from.entry)
        (lent (M.strict master.old) (M.refused master.old) (M.refused master.new)) limit)
        (from_names (option_copied from.entry)) proof.now (S.told shelf.old) (S.told shelf.new) result }
{
    match from {
        Some(from) => solve_proof(
            alloc, shelf, demand, instance, from, proof, limit, master, watch,
        ),
        None => solve_asked(
            alloc, shelf, demand, instance, None, proof, limit, master, watch,
        ),
    }
}

// Solves a demand text by the grammar of a rules text.
fn solve_demand_text<S: Shelf, M: Master, W: Watch>(
    alloc: Global,
    shelf: &mut S,
    rules: &[u8],
    grammar: Grammar,
    text: &[u8],
    from: Option<&str>,
    proof: &str,
    limit: Limit,
    master: &mut M,
    watch: &mut W,
) -> u8
    requires sound { IsSound grammar }
    requires plain { IsPlain grammar }
    requires limit { IsLimit limit }
    ensures { IsWriter (SolvesDemand (S.told shelf.old).held grammar text.now (option_copied from.entry)
        (lent (M.strict master.old) (M.refused master.old) (M.refused master.new)) limit)
        (from_names (option_copied from.entry)) proof.now (S.told shelf.old) (S.told shelf.new) result }
{
    let periods = grammar.periods;
    match read_demand(alloc, grammar, text) {
        Ok(instance) => {
            note_day(alloc, shelf, rules, text, &instance);
            solve_from(
                alloc, shelf, text, &instance, from, proof, limit, master, watch,
            )
        }
        Err(fault) => {
            let note = demand_note(alloc, text, periods, fault);
            say_remarked(shelf, text, demand_refusal(alloc, fault), note)
        }
    }
}

// Solves the demand text under a name by the grammar of a rules text.
fn solve_demand<S: Shelf, M: Master, W: Watch>(
    alloc: Global,
    shelf: &mut S,
    rules: &[u8],
    grammar: Grammar,
    demand: &str,
    from: Option<&str>,
    proof: &str,
    limit: Limit,
    master: &mut M,
    watch: &mut W,
) -> u8
    requires sound { IsSound grammar }
    requires plain { IsPlain grammar }
    requires limit { IsLimit limit }
    ensures { IsWriter (AnswersSolveDemand (S.told shelf.old).held grammar demand.now
        (option_copied from.entry) (lent (M.strict master.old) (M.refused master.old)
        (M.refused master.new)) limit)
        (demand.now ∷ from_names (option_copied from.entry)) proof.now
        (S.told shelf.old) (S.told shelf.new) result }
{
    match fetched(alloc, shelf, demand, MOST_DEMAND) {
        Ok(text) => solve_demand_text(
            alloc,
            shelf,
            rules,
            grammar,
            text.as_slice(),
            from,
            proof,
            limit,
            master,
            watch,
        ),
        Err(status) => status,
    }
}

// Solves the demand text under a name by a rules text.
fn solve_rules_text<S: Shelf, M: Master, W: Watch>(
    alloc: Global,
    shelf: &mut S,
    text: &[u8],
    demand: &str,
    from: Option<&str>,
    proof: &str,
    limit: Limit,
    master: &mut M,
    watch: &mut W,
) -> u8
    requires limit { IsLimit limit }
    ensures { IsWriter (SolvesRules (S.told shelf.old).held text.now demand.now
        (option_copied from.entry) (lent (M.strict master.old) (M.refused master.old)
        (M.refused master.new)) limit)
        (demand.now ∷ from_names (option_copied from.entry)) proof.now
        (S.told shelf.old) (S.told shelf.new) result }
{
    match read_rules(alloc, text) {
        Ok(grammar) => solve_demand(
            alloc, shelf, text, grammar, demand, from, proof, limit, master, watch,
        ),
        Err(fault) => {
            let note = rules_note(alloc, text, fault);
            say_remarked(shelf, text, rules_refusal(alloc, fault), note)
        }
    }
}

/// Searches a roster of least cost by the rules and demand texts under names, within a limit, stores its
/// certificate under the name of the proof, and says the report; or says why a text is refused, or that there
/// are too many arcs. Where the name of an old certificate is said, its text is fetched and read third, and
/// what is found costs no more than its roster, if that is allowed on this day. The texts are fetched and
/// read in this order, before anything is stored. Where a text that is no certificate stands under the name
/// of the proof, the shelf refuses before the search; where it refuses the certificate after the search, the
/// report is said all the same, with status 6.
pub fn solve<S: Shelf, M: Master, W: Watch>(
    alloc: Global,
    shelf: &mut S,
    rules: &str,
    demand: &str,
    from: Option<&str>,
    proof: &str,
    limit: Limit,
    master: &mut M,
    watch: &mut W,
) -> u8
    requires limit { IsLimit limit }
    ensures { IsWriter (SolveAnswers (S.told shelf.old).held rules.now demand.now
        (option_copied from.entry) (lent (M.strict master.old) (M.refused master.old)
        (M.refused master.new)) limit)
        (rules.now ∷ demand.now ∷ from_names (option_copied from.entry)) proof.now
        (S.told shelf.old) (S.told shelf.new) result }
{
    match fetched(alloc, shelf, rules, MOST_RULES) {
        Ok(text) => solve_rules_text(
            alloc,
            shelf,
            text.as_slice(),
            demand,
            from,
            proof,
            limit,
            master,
            watch,
        ),
        Err(status) => status,
    }
}
