//! The curve of a day, its points stored one by one.

ghost use Rattle.std.specs.Prelude.{ℕ, ◌≡◌, ◌≤◌, ◌<◌, Bool, [], ◌∷◌, string_bytes, IfOk, MatchResult};
ghost use Rattle.std.specs.Option.{option_copied};
ghost use Rattle.std.specs.List.{list_all};
ghost use Rattle.search_days.specs.Solutions.{HasArcCount, IsSolution};
ghost use Rattle.search_days.specs.day_curve.Curves.{point_day, point_heads, points_of};
ghost use Rattle.search_days.specs.day_curve.CurveText.{curve_text, point_of};
ghost use Rattle.search_days.specs.day_curve.Named.{staff_of};
ghost use Rattle.search_days.specs.day_curve.Staffs.{IsStaff, staff_most};
ghost use Rattle.model_rosters.specs.Sound.{IsPlain, IsSound};
ghost use Rattle.model_rosters.specs.SoundInstance.{IsSoundInstance};
ghost use Rattle.command_searches.specs.Curve.{
  AnswersCurveDemand,
  AnswersGroups,
  Curving,
  CurvesDemand,
  CurvesRules,
  MayStoreDemand,
  MayStoreHeldDemand,
  MayStorePoints,
  MayStoreRules,
  MayStoreTeam,
  SaysNoTeam,
  curve_status,
  has_no_cost,
  is_closed,
  point_name,
};
ghost use Rattle.command_searches.specs.CurveAnswers.{CurveAnswers, MayStoreDay};
ghost use Rattle.command_searches.specs.Limits.{IsLimit};
ghost use Rattle.command_searches.specs.Points.{BreaksCurve, FindsFirst, FindsPoint, next_heads};
ghost use Rattle.command_answers.specs.Reader.{IsReader, MayStore};
ghost use Rattle.command_texts.specs.Start.{AnswersNoForm};
ghost use Rattle.command_searches.specs.Series.{IsBrokenOff, IsSeriesWriter, IsStoredBy};
ghost use Rattle.command_searches.specs.Solve.{lent};
ghost use Rattle.command_searches.specs.Writer.{IsAsked, IsTurnedDown};

use crate::limit::Limit;
use crate::solve::graph_refusal;
use crate::store::ask_name;
use command_answers::{
    Answer, MEMORY, MOST_DEMAND, MOST_RULES, demand_refusal, fetched, rules_refusal, say,
    say_answer, say_remarked, status_of,
};
use command_shelf::Shelf;
use command_texts::findings::note_day;
use command_texts::start::NO_FORM;
use model_rosters::{Grammar, Instance, Memory};
use search_branch_price::{Master, Subject, Watch};
use search_days::{CurvePoint, DayCurve, Solution, Staff, staff_of, write_curve};
use std::alloc::Global;
use text_demand::read_demand;
use text_fault_notes::{demand_note, rules_note};
use text_rules::read_rules;

const GROUPS: &[u8] = b"demand: groups have no curve\n";

// Returns the name that a point's certificate is stored under.
fn point_name(alloc: Global, proof: &str, heads: u32) -> Result<String, Memory>
    ensures { IfOk result (λ name. string_bytes name ≡ point_name proof.now heads) }
{
    Ok(format!(in alloc; "{proof}.{heads}")?)
}

// Asks whether the certificate of a point may be stored, or returns the status of a refusal.
fn ask_point<S: Shelf>(alloc: Global, shelf: &mut S, proof: &str, heads: u32) -> Result<(), u8>
    ensures { MatchResult result
        (λ _. IsAsked (MayStore (point_name proof.now heads)) (S.told shelf.old) (S.told shelf.new))
        (IsTurnedDown (MayStore (point_name proof.now heads)) (S.told shelf.old) (S.told shelf.new)) }
{
    match point_name(alloc, proof, heads) {
        Ok(name) => ask_name(shelf, name.as_str()),
        Err(Memory) => Err(MEMORY),
    }
}

// Asks whether the certificates of all points may be stored, or returns the status of a refusal.
fn ask_points<S: Shelf>(
    alloc: Global,
    shelf: &mut S,
    curve: &DayCurve,
    proof: &str,
) -> Result<(), u8>
    requires { curve.now.given ≡ 0 }
    ensures { MatchResult result
        (λ _. IsAsked (MayStoreTeam proof.now curve.now.staff curve.now.day) (S.told shelf.old)
        (S.told shelf.new))
        (IsTurnedDown (MayStoreTeam proof.now curve.now.staff curve.now.day) (S.told shelf.old)
        (S.told shelf.new)) }
{
    let mut heads = curve.heads();
    for _ in 0..curve.points() {
        ask_point(alloc, shelf, proof, heads)?;
        heads = heads.saturating_add(1);
    }
    Ok(())
}

// Stores a text under a name, or returns the status of a refusal.
#[tactic(auto, using(crate::proofs::Writers::keeps_stored))]
fn store_text<S: Shelf>(shelf: &mut S, name: &str, text: &[u8]) -> Result<(), u8>
    ensures { MatchResult result
        (λ _. IsStoredBy (record { name = name.now; text = text.now } ∷ []) (S.told shelf.old)
        (S.told shelf.new))
        (IsBrokenOff [] name.now (S.told shelf.old) (S.told shelf.new)) }
{
    match shelf.store(name, text) {
        Ok(()) => Ok(()),
        Err(fault) => Err(status_of(fault)),
    }
}

// Stores the certificate of a point, or returns the status of a refusal.
fn store_point<S: Shelf>(
    alloc: Global,
    shelf: &mut S,
    proof: &str,
    heads: u32,
    text: &[u8],
) -> Result<(), u8>
    ensures { MatchResult result
        (λ _. IsStoredBy (record { name = point_name proof.now heads; text = text.now } ∷ [])
        (S.told shelf.old)
        (S.told shelf.new))
        (IsBrokenOff [] (point_name proof.now heads) (S.told shelf.old) (S.told shelf.new)) }
{
    match point_name(alloc, proof, heads) {
        Ok(name) => store_text(shelf, name.as_str(), text),
        Err(Memory) => Err(MEMORY),
    }
}

// Stores the certificate of a solution and returns the point, or the status of a refusal.
fn solved_point<S: Shelf>(
    alloc: Global,
    shelf: &mut S,
    proof: &str,
    heads: u32,
    solution: &Solution,
) -> Result<CurvePoint, u8>
    ensures is { IfOk result (λ point. point ≡ point_of heads solution.now.found) }
    ensures stored { MatchResult result
        (λ _. IsStoredBy (record { name = point_name proof.now heads; text = solution.now.proof } ∷ [])
        (S.told shelf.old)
        (S.told shelf.new))
        (IsBrokenOff [] (point_name proof.now heads) (S.told shelf.old) (S.told shelf.new)) }
{
    match store_point(alloc, shelf, proof, heads, solution.proof.as_slice()) {
        Ok(()) => Ok(CurvePoint::of(heads, &solution.found)),
        Err(status) => Err(status),
    }
}

// Stores the certificate of a solution, has the curve keep its roster, and returns the point, or the status
// of a refusal.
fn kept_point<S: Shelf>(
    alloc: Global,
    shelf: &mut S,
    curve: &mut DayCurve,
    proof: &str,
    solution: Solution,
) -> Result<CurvePoint, u8>
    requires { (strict : Bool) × (turns : ℕ) × IsSolution (point_day curve.old) strict turns solution }
    ensures kept { curve.new ≡ record curve.old { kept = solution.found.cert.shifts } }
    ensures is { IfOk result (λ point. point ≡ point_of (point_heads curve.old) solution.found) }
    ensures stored { MatchResult result
        (λ _. IsStoredBy (record { name = point_name proof.now (point_heads curve.old); text = solution.proof } ∷ [])
        (S.told shelf.old)
        (S.told shelf.new))
        (IsBrokenOff [] (point_name proof.now (point_heads curve.old)) (S.told shelf.old) (S.told shelf.new)) }
{
    let point = solved_point(alloc, shelf, proof, curve.heads(), &solution);
    curve.keep(solution);
    point
}

// Searches the next point of a curve and stores its certificate, or returns the status of a refusal. The
// watch is told that it has so many employees at most.
fn next_point<S: Shelf, M: Master, W: Watch>(
    alloc: Global,
    shelf: &mut S,
    curve: &mut DayCurve,
    heads: u32,
    proof: &str,
    limit: Limit,
    master: &mut M,
    watch: &mut W,
) -> Result<CurvePoint, u8>
    requires more { curve.old.given < points_of curve.old }
    requires limit { IsLimit limit }
    ensures point { MatchResult result
        (FindsPoint curve.old curve.new proof.now (lent (M.strict master.old) (M.refused master.old)
        (M.refused master.new)) limit (S.told shelf.old) (S.told shelf.new))
        (IsBrokenOff [] (point_name proof.now (next_heads curve.old))
        (S.told shelf.old)
        (S.told shelf.new)) }
    ensures strict_stays { M.strict master.new ≡ M.strict master.old }
{
    let limit_turns = limit.turns();
    let limit_seconds = limit.seconds();
    watch.begin(Subject::Point { heads }, limit_seconds);
    match curve.next(limit_turns, master, watch) {
        Ok(solution) => kept_point(alloc, shelf, curve, proof, solution),
        Err(Memory) => Err(MEMORY),
    }
}

// Searches the points of a curve and stores their certificates, or returns the status of a refusal.
fn all_points<S: Shelf, M: Master, W: Watch>(
    alloc: Global,
    shelf: &mut S,
    curve: &mut DayCurve,
    proof: &str,
    limit: Limit,
    master: &mut M,
    watch: &mut W,
) -> Result<Vec<CurvePoint>, u8>
    requires none { curve.old.given ≡ 0 }
    requires free { curve.old.kept ≡ [] }
    requires points { 0 < points_of curve.old }
    requires limit { IsLimit limit }
    ensures { MatchResult result
        (λ points. FindsFirst curve.old.day curve.old.staff proof.now (lent (M.strict master.old)
        (M.refused master.old) (M.refused master.new)) limit (points_of curve.old) curve.new.kept
        (S.told shelf.old) (S.told shelf.new) points.items)
        (BreaksCurve curve.old.day curve.old.staff proof.now (lent (M.strict master.old)
        (M.refused master.old) (M.refused master.new)) limit (S.told shelf.old) (S.told shelf.new)) }
{
    let mut heads = curve.heads();
    let count = curve.points();
    let Ok(mut points) = Vec::with_capacity(alloc, count as usize) else {
        return Err(MEMORY);
    };
    for _ in 0..count {
        let point = next_point(alloc, shelf, curve, heads, proof, limit, master, watch)?;
        points.push_reserved(point);
        heads = heads.saturating_add(1);
    }
    Ok(points)
}

// Returns whether the cost and the bound of a point are one number, or both none.
fn is_closed(point: &CurvePoint) -> bool
    ensures { result ≡ is_closed point.now }
{
    match (point.cost, point.bound) {
        (None, None) => true,
        (Some(cost), Some(bound)) => cost == bound,
        _ => false,
    }
}

// Says whether a point has no cost.
fn has_no_cost(point: &CurvePoint) -> bool
    ensures { result ≡ has_no_cost point.now }
{
    point.cost.is_none()
}

// Returns whether no point is left open.
fn are_closed(points: &[CurvePoint]) -> bool
    ensures { result ≡ list_all is_closed points.now }
{
    points.iter().all(|point| is_closed(point))
}

// Returns whether no point has a cost.
fn have_no_cost(points: &[CurvePoint]) -> bool
    ensures { result ≡ list_all has_no_cost points.now }
{
    points.iter().all(|point| has_no_cost(point))
}

// Returns the status of a curve.
fn status_of_points(points: &[CurvePoint]) -> u8
    ensures { result ≡ curve_status points.now }
{
    if !are_closed(points) {
        return 8;
    }
    if have_no_cost(points) {
        return 1;
    }
    0
}

// Says the points of a curve.
fn points_answer(
    alloc: Global,
    group: Option<&str>,
    points: &[CurvePoint],
) -> Result<Answer, Memory>
    ensures { IfOk result (λ a. (a.status ≡ curve_status points.now)
        × (a.output ≡ curve_text (option_copied group.entry) points.now)) }
{
    Ok(Answer {
        status: status_of_points(points),
        output: write_curve(alloc, group, points)?,
    })
}

// Searches a curve of which no point is given, stores the certificates of its points and says them.
fn curve_points<S: Shelf, M: Master, W: Watch>(
    alloc: Global,
    shelf: &mut S,
    curve: &mut DayCurve,
    group: Option<&str>,
    proof: &str,
    limit: Limit,
    master: &mut M,
    watch: &mut W,
) -> u8
    requires none { curve.old.given ≡ 0 }
    requires points { 0 < points_of curve.old }
    requires free { curve.old.kept ≡ [] }
    requires team { staff_of curve.old.day (option_copied group) ≡ Some curve.old.staff }
    requires few { staff_most curve.old.staff curve.old.day ≤ 64 }
    requires arcs { (arcs : ℕ) × HasArcCount curve.old.day.grammar arcs }
    requires limit { IsLimit limit }
    ensures { IsSeriesWriter
        (Curving curve.old.day (option_copied group.entry) proof.now
        (lent (M.strict master.old) (M.refused master.old)
        (M.refused master.new)) limit) [] (MayStorePoints proof.now (option_copied group.entry) curve.old.day)
        (S.told shelf.old)
        (S.told shelf.new) result }
{
    match all_points(alloc, shelf, curve, proof, limit, master, watch) {
        Ok(points) => say_answer(shelf, points_answer(alloc, group, points.as_slice())),
        Err(status) => status,
    }
}

// Searches a curve that was just made, stores the certificates of its points and says them, once the shelf
// has said that all of them may be stored.
fn curve_made<S: Shelf, M: Master, W: Watch>(
    alloc: Global,
    shelf: &mut S,
    mut curve: DayCurve,
    group: Option<&str>,
    proof: &str,
    limit: Limit,
    master: &mut M,
    watch: &mut W,
) -> u8
    requires none { curve.given ≡ 0 }
    requires free { curve.kept ≡ [] }
    requires points { 0 < points_of curve }
    requires team { staff_of curve.day (option_copied group) ≡ Some curve.staff }
    requires few { staff_most curve.staff curve.day ≤ 64 }
    requires arcs { (arcs : ℕ) × HasArcCount curve.day.grammar arcs }
    requires limit { IsLimit limit }
    ensures { IsSeriesWriter
        (Curving curve.day (option_copied group.entry) proof.now
        (lent (M.strict master.old) (M.refused master.old)
        (M.refused master.new)) limit) [] (MayStorePoints proof.now (option_copied group.entry) curve.day)
        (S.told shelf.old)
        (S.told shelf.new) result }
{
    let status = match ask_points(alloc, shelf, &curve, proof) {
        Ok(()) => curve_points(alloc, shelf, &mut curve, group, proof, limit, master, watch),
        Err(status) => status,
    };
    drop(curve);
    status
}

// Searches the curve of an instance over a team, or says that it has too many arcs.
fn curve_team<S: Shelf, M: Master, W: Watch>(
    alloc: Global,
    shelf: &mut S,
    instance: Instance,
    staff: Staff,
    group: Option<&str>,
    proof: &str,
    limit: Limit,
    master: &mut M,
    watch: &mut W,
) -> u8
    requires sound { IsSoundInstance instance }
    requires staff { IsStaff instance staff }
    requires team { staff_of instance (option_copied group) ≡ Some staff }
    requires limit { IsLimit limit }
    ensures { IsSeriesWriter (Curving instance (option_copied group.entry) proof.now (lent (M.strict master.old)
        (M.refused master.old) (M.refused master.new)) limit) []
        (MayStorePoints proof.now (option_copied group.entry) instance) (S.told shelf.old)
        (S.told shelf.new) result }
{
    match DayCurve::new(alloc, instance, staff) {
        Ok(curve) => curve_made(alloc, shelf, curve, group, proof, limit, master, watch),
        Err(fault) => say_answer(shelf, graph_refusal(alloc, fault)),
    }
}

// Says that a day with groups has no curve.
fn refuse_groups<S: Shelf>(shelf: &mut S) -> u8
    ensures { IsReader AnswersGroups [] (S.told shelf.old) (S.told shelf.new) result }
{
    say(shelf, GROUPS, 4)
}

// Says that the words have no form.
fn say_no_form<S: Shelf>(shelf: &mut S) -> u8
    ensures { IsReader AnswersNoForm [] (S.told shelf.old) (S.told shelf.new) result }
{
    say(shelf, NO_FORM, 2)
}

// Notes that a name is none of the demand's groups; nothing after want of memory.
fn note_group<S: Shelf>(alloc: Global, shelf: &mut S, name: &str)
    ensures { S.told shelf.new ≡ S.told shelf.old }
{
    match format!(in alloc; "{name} is no group of the demand") {
        Ok(note) => shelf.note(note.as_str()),
        Err(_) => {}
    }
}

// Says that the words have no form, since a name is none of the demand's groups.
fn refuse_name<S: Shelf>(alloc: Global, shelf: &mut S, name: &str) -> u8
    ensures { IsReader AnswersNoForm [] (S.told shelf.old) (S.told shelf.new) result }
{
    note_group(alloc, shelf, name);
    say_no_form(shelf)
}

// Says why there is no number to vary.
fn refuse_team<S: Shelf>(alloc: Global, shelf: &mut S, group: Option<&str>) -> u8
    ensures { IsReader (SaysNoTeam (option_copied group.entry)) []
        (S.told shelf.old) (S.told shelf.new) result }
{
    match group {
        Some(name) => refuse_name(alloc, shelf, name),
        None => refuse_groups(shelf),
    }
}

// Searches the curve of an instance over the team of a name, or says that there is none.
fn curve_instance<S: Shelf, M: Master, W: Watch>(
    alloc: Global,
    shelf: &mut S,
    instance: Instance,
    group: Option<&str>,
    proof: &str,
    limit: Limit,
    master: &mut M,
    watch: &mut W,
) -> u8
    requires sound { IsSoundInstance instance }
    requires limit { IsLimit limit }
    ensures { IsSeriesWriter (Curving instance (option_copied group.entry) proof.now (lent (M.strict master.old)
        (M.refused master.old) (M.refused master.new)) limit) []
        (MayStorePoints proof.now (option_copied group.entry) instance) (S.told shelf.old)
        (S.told shelf.new) result }
{
    match staff_of(&instance, group) {
        Some(staff) => curve_team(
            alloc, shelf, instance, staff, group, proof, limit, master, watch,
        ),
        None => refuse_team(alloc, shelf, group),
    }
}

// Searches the curve of a demand text by the grammar of a rules text.
fn curve_demand_text<S: Shelf, M: Master, W: Watch>(
    alloc: Global,
    shelf: &mut S,
    rules: &[u8],
    grammar: Grammar,
    text: &[u8],
    group: Option<&str>,
    proof: &str,
    limit: Limit,
    master: &mut M,
    watch: &mut W,
) -> u8
    requires sound { IsSound grammar }
    requires plain { IsPlain grammar }
    requires limit { IsLimit limit }
    ensures { IsSeriesWriter (CurvesDemand grammar text.now (option_copied group.entry) proof.now
        (lent (M.strict master.old)
        (M.refused master.old) (M.refused master.new)) limit) []
        (MayStoreDemand proof.now (option_copied group.entry) grammar text.now)
        (S.told shelf.old) (S.told shelf.new) result }
{
    let periods = grammar.periods;
    match read_demand(alloc, grammar, text) {
        Ok(instance) => {
            note_day(alloc, shelf, rules, text, &instance);
            curve_instance(alloc, shelf, instance, group, proof, limit, master, watch)
        }
        Err(fault) => {
            let note = demand_note(alloc, text, periods, fault);
            say_remarked(shelf, text, demand_refusal(alloc, fault), note)
        }
    }
}

// Searches the curve of the demand text under a name by the grammar of a rules text.
fn curve_demand<S: Shelf, M: Master, W: Watch>(
    alloc: Global,
    shelf: &mut S,
    rules: &[u8],
    grammar: Grammar,
    demand: &str,
    group: Option<&str>,
    proof: &str,
    limit: Limit,
    master: &mut M,
    watch: &mut W,
) -> u8
    requires sound { IsSound grammar }
    requires plain { IsPlain grammar }
    requires limit { IsLimit limit }
    ensures { IsSeriesWriter (AnswersCurveDemand (S.told shelf.old).held grammar demand.now
        (option_copied group.entry) proof.now
        (lent (M.strict master.old) (M.refused master.old) (M.refused master.new)) limit) (demand.now ∷ [])
        (MayStoreHeldDemand proof.now (option_copied group.entry) grammar demand.now)
        (S.told shelf.old) (S.told shelf.new) result }
{
    match fetched(alloc, shelf, demand, MOST_DEMAND) {
        Ok(text) => curve_demand_text(
            alloc,
            shelf,
            rules,
            grammar,
            text.as_slice(),
            group,
            proof,
            limit,
            master,
            watch,
        ),
        Err(status) => status,
    }
}

// Searches the curve of the demand text under a name by a rules text.
fn curve_rules_text<S: Shelf, M: Master, W: Watch>(
    alloc: Global,
    shelf: &mut S,
    text: &[u8],
    demand: &str,
    group: Option<&str>,
    proof: &str,
    limit: Limit,
    master: &mut M,
    watch: &mut W,
) -> u8
    requires limit { IsLimit limit }
    ensures { IsSeriesWriter (CurvesRules (S.told shelf.old).held text.now demand.now
        (option_copied group.entry) proof.now
        (lent (M.strict master.old) (M.refused master.old) (M.refused master.new)) limit) (demand.now ∷ [])
        (MayStoreRules proof.now (option_copied group.entry) text.now demand.now)
        (S.told shelf.old) (S.told shelf.new) result }
{
    match read_rules(alloc, text) {
        Ok(grammar) => curve_demand(
            alloc, shelf, text, grammar, demand, group, proof, limit, master, watch,
        ),
        Err(fault) => {
            let note = rules_note(alloc, text, fault);
            say_remarked(shelf, text, rules_refusal(alloc, fault), note)
        }
    }
}

/// Searches the curve of a day's least costs over its greatest head count, or over that of the group of a
/// name, by the rules and demand texts under names, each point within the limit; stores the certificate of
/// each point under the name of the proof, a full stop and the head count, and then says the points; or says
/// why a text is refused, that the day has groups and no name was said, that it has no group of the name, or
/// that there are too many arcs. Each point is offered the roster of the one before, so that its cost is at
/// most that. The texts are fetched and read in this order, before anything is stored. Where a text that is
/// no certificate stands under the name of a point, the shelf refuses before the search.
pub fn curve<S: Shelf, M: Master, W: Watch>(
    alloc: Global,
    shelf: &mut S,
    rules: &str,
    demand: &str,
    group: Option<&str>,
    proof: &str,
    limit: Limit,
    master: &mut M,
    watch: &mut W,
) -> u8
    requires limit { IsLimit limit }
    ensures { IsSeriesWriter (CurveAnswers (S.told shelf.old).held rules.now demand.now
        (option_copied group.entry) proof.now
        (lent (M.strict master.old) (M.refused master.old) (M.refused master.new)) limit)
        (rules.now ∷ demand.now ∷ []) (MayStoreDay proof.now (option_copied group.entry) rules.now demand.now)
        (S.told shelf.old)
        (S.told shelf.new) result }
{
    match fetched(alloc, shelf, rules, MOST_RULES) {
        Ok(text) => curve_rules_text(
            alloc,
            shelf,
            text.as_slice(),
            demand,
            group,
            proof,
            limit,
            master,
            watch,
        ),
        Err(status) => status,
    }
}
