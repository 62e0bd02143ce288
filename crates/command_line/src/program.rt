//! The public call `run`, with an arm for each command.

ghost use Rattle.std.specs.Prelude.{[], map, string_bytes};
ghost use Rattle.command_line.specs.Form.{form_of};
ghost use Rattle.command_line.specs.OneAnswer.{HasOneAnswer};
ghost use Rattle.command_line.specs.Run.{Does};
ghost use Rattle.command_answers.specs.Reader.{IsReader};
ghost use Rattle.command_texts.specs.Start.{AnswersNoForm};
ghost use Rattle.command_searches.specs.Solve.{lent};

use crate::form::{Form, form_of};
use crate::notes::note_forms;
use command_answers::say;
use command_searches::curve::curve;
use command_searches::make::make;
use command_searches::reuse::reuse;
use command_searches::solve::solve;
use command_shelf::Shelf;
use command_texts::check::check;
use command_texts::explain::explain;
use command_texts::fits::fits;
use command_texts::next::next;
use command_texts::rank::rank;
use command_texts::relax::demand::relax_demand;
use command_texts::relax::rules::relax_rules;
use command_texts::start::NO_FORM;
use command_texts::what_if::rest::rest;
use command_texts::what_if::value::value;
use search_branch_price::{Master, Watch};
use std::alloc::Global;

// Says that words have no form.
fn say_no_form<S: Shelf>(shelf: &mut S) -> u8
    ensures { IsReader AnswersNoForm [] (S.told shelf.old) (S.told shelf.new) result }
{
    say(shelf, NO_FORM, 2)
}

// Says that the words have no form, and notes what forms there are.
fn refuse_words<S: Shelf>(shelf: &mut S, words: &[String]) -> u8
    ensures { IsReader AnswersNoForm [] (S.told shelf.old) (S.told shelf.new) result }
{
    note_forms(shelf, words);
    say_no_form(shelf)
}

/// Does what the words of the command line ask for, and returns the status:
///
/// | status | comes |
/// |---|---|
/// | 0 | `explain RULES WORD`: the word is a shift; `rank RULES MOST`: the day has a tree; `next RULES PREFIX`: some code may follow the prefix; `fits RULES PATTERN`: a shift fits; `check RULES DEMAND PROOF`: the certificate is accepted; `value RULES DEMAND ROSTER`: the stated roster is allowed; `rest RULES DEMAND ROSTER`: a day remains beside the kept shifts; `relax-rules RULES` and `relax-demand RULES DEMAND KIND`: the texts are accepted; `reuse RULES DEMAND PROOF`: its nodes show a bound on this day; `solve RULES DEMAND PROOF LIMIT` and `make NUMBER PROOF LIMIT`: a roster was found, and no allowed roster costs less; `curve RULES DEMAND PROOF LIMIT`: so it is for some head count, and every point is closed |
/// | 1 | `explain`: the word is no shift; `rank`: the day has no tree; `next`: no code may follow; `fits`: no shift fits; `check`: the certificate is refused; `value`: the roster is not allowed; `rest`: no day remains; `reuse`: the nodes are refused; `solve`: no roster is allowed; `curve`: none is for any head count |
/// | 2 | the words are none of the command's forms; `explain`, `rank`, `next`, `fits`: the rules have no such NAME; `curve`: the demand has no group NAME |
/// | 3 | the rules text is refused |
/// | 4 | `check`, `value`, `rest`, `relax-demand`, `reuse`, `solve`, `curve`: the demand text is refused; `curve` without a NAME: the day has groups |
/// | 5 | `check`, `reuse`: the proof text is refused; `value`, `rest`: the roster text is; `solve`: the proof text FROM is |
/// | 6 | the shelf refused a call, or a text that is no certificate stands where one is to be stored |
/// | 7 | memory did not suffice |
/// | 8 | `solve`, `make`: the turns or the seconds ran out before the bound was the cost; `curve`: so they did for some head count |
/// | 9 | `solve`, `curve`, `make`: the instance has more than 100,000 arcs |
///
/// LIMIT is a number of turns from 1 to 10,000, or one of seconds from 1 to 86,400 with an s behind it; the
/// watch is told of a search between its turns, and asked within them too. MOST is one from 1 to 1,000, and
/// NUMBER one from 0 to 4,294,967,295. KIND is `floors` or `ceilings`. In PATTERN `#` stands for any code.
/// `explain`, `rank`, `next` and `fits` take a name of the rules as a last word, from which they derive then
/// in place of the start name. `curve` takes the name of a group of the demand, whose greatest number it
/// varies, and `solve` the name FROM of an old certificate: what it finds costs no more than the roster of
/// that, where this is allowed on the day. A command says its whole answer at once; `solve` and `make` have
/// stored the certificate under PROOF before, and `curve` those of its points under PROOF, a full stop and
/// the head count. Status 6 or 7 ends it at the call that was refused, but where `solve` and `make` are
/// refused to store the certificate: then they say their answer all the same, with status 6. But for these
/// two any two answers over the same texts have the same status and say the same, save that `explain` may
/// print another tree of the same cost, and that a search may use up its turns; two searches with status 0
/// say the same cost and bound, and may find different rosters and process different nodes.
pub fn run<S: Shelf, M: Master, W: Watch>(
    alloc: Global,
    shelf: &mut S,
    words: &[String],
    master: &mut M,
    watch: &mut W,
) -> u8
    ensures does { Does (form_of (map string_bytes words.now)) (S.told shelf.old) (S.told shelf.new)
        (lent (M.strict master.old) (M.refused master.old) (M.refused master.new)) result }
    ensures one_answer { HasOneAnswer (form_of (map string_bytes words.now)) }
{
    match form_of(words) {
        Form::Explain { rules, word, start } => explain(alloc, shelf, rules, word, start),
        Form::Rank { rules, most, start } => rank(alloc, shelf, rules, most, start),
        Form::Next {
            rules,
            prefix,
            start,
        } => next(alloc, shelf, rules, prefix, start),
        Form::Fits {
            rules,
            pattern,
            start,
        } => fits(alloc, shelf, rules, pattern, start),
        Form::Check {
            rules,
            demand,
            proof,
        } => check(alloc, shelf, rules, demand, proof),
        Form::Value {
            rules,
            demand,
            roster,
        } => value(alloc, shelf, rules, demand, roster),
        Form::Rest {
            rules,
            demand,
            roster,
        } => rest(alloc, shelf, rules, demand, roster),
        Form::RelaxRules { rules } => relax_rules(alloc, shelf, rules),
        Form::RelaxDemand {
            rules,
            demand,
            kind,
        } => relax_demand(alloc, shelf, kind, rules, demand),
        Form::Reuse {
            rules,
            demand,
            proof,
        } => reuse(alloc, shelf, rules, demand, proof),
        Form::Solve {
            rules,
            demand,
            proof,
            limit,
            from,
        } => solve(
            alloc, shelf, rules, demand, from, proof, limit, master, watch,
        ),
        Form::Curve {
            rules,
            demand,
            proof,
            limit,
            group,
        } => curve(
            alloc, shelf, rules, demand, group, proof, limit, master, watch,
        ),
        Form::Make {
            number,
            proof,
            limit,
        } => make(alloc, shelf, number, proof, limit, master, watch),
        Form::None => refuse_words(shelf, words),
    }
}
