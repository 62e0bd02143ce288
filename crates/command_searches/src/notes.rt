//! What is noted of a search that ended.

ghost use Rattle.std.specs.Prelude.{◌≡◌};
ghost use Rattle.model_rosters.specs.SoundInstance.{IsSoundInstance};

use crate::idle_codes::idle_codes_text;
use crate::infeasible::infeasible_text;
use check_certificates::{Cert, Node};
use command_shelf::Shelf;
use lp_master_rows::count_rows;
use model_rosters::{Instance, base_cut_count};
use std::alloc::Global;

const UNPROVED: &str =
    "nothing is proved yet: give more turns or seconds, or make the rules simpler";

/// What tells how far a day is from having a roster.
const RELAXED: &str =
    "how much is missing, relax-rules RULES and relax-demand RULES DEMAND floors tell, or ceilings";

/// The most rows of a program that has prices.
const MOST_ROWS: usize = 1_500;

// Returns how many rows the program of all shifts has.
fn root_rows(instance: &Instance) -> usize
    requires { IsSoundInstance instance.now }
{
    count_rows(instance, &[]).saturating_add(base_cut_count(instance))
}

// Notes that so many rows are too many for prices.
fn note_rows<S: Shelf>(alloc: Global, shelf: &mut S, rows: usize)
    ensures { S.told shelf.new ≡ S.told shelf.old }
{
    match format!(in alloc;
        "nothing is proved: the program of all shifts has {rows} rows, and at most 1500 are priced"
    ) {
        Ok(text) => shelf.note(text.as_str()),
        Err(_) => {}
    }
}

// Notes why the day alone shows that no roster is allowed, where it does.
fn note_infeasible<S: Shelf>(alloc: Global, shelf: &mut S, instance: &Instance)
    requires { IsSoundInstance instance.now }
    ensures { S.told shelf.new ≡ S.told shelf.old }
{
    match infeasible_text(alloc, instance) {
        Some(text) if !text.is_empty() => shelf.note(text.as_str()),
        _ => {}
    }
}

// Notes why no roster is allowed, where the day alone shows it, and what tells how far the day is from having
// one.
fn note_none<S: Shelf>(alloc: Global, shelf: &mut S, instance: &Instance)
    requires { IsSoundInstance instance.now }
    ensures { S.told shelf.new ≡ S.told shelf.old }
{
    note_infeasible(alloc, shelf, instance);
    shelf.note(RELAXED);
}

// Whether a node has no prices, and so shows nothing of itself.
fn shows_nothing(node: &Node) -> bool {
    match node {
        Node::Split { prices, .. } => prices.is_none(),
        Node::Priced { .. } | Node::Pinned => false,
        Node::Bare => true,
    }
}

// Whether a certificate's bound is 0 and some node of it has no prices.
fn proves_nothing(cert: &Cert) -> bool {
    cert.bound == Some(0) && cert.nodes.as_slice().iter().any(|node| shows_nothing(node))
}

/// Notes what is to be done where the turns ran out, with status 8, before anything is proved.
pub(crate) fn note_unproved<S: Shelf>(shelf: &mut S, cert: &Cert, status: u8)
    ensures { S.told shelf.new ≡ S.told shelf.old }
{
    if status == 8 && proves_nothing(cert) {
        shelf.note(UNPROVED);
    }
}

// Notes what is to be done where the turns ran out, with status 8, before anything is proved of a day, or
// that it has too many rows for prices.
fn note_unproved_day<S: Shelf>(
    alloc: Global,
    shelf: &mut S,
    instance: &Instance,
    cert: &Cert,
    status: u8,
)
    requires { IsSoundInstance instance.now }
    ensures { S.told shelf.new ≡ S.told shelf.old }
{
    let rows = root_rows(instance);
    if rows <= MOST_ROWS {
        note_unproved(shelf, cert, status);
        return;
    }
    if status == 8 && proves_nothing(cert) {
        note_rows(alloc, shelf, rows);
    }
}

// Notes the codes of need at which nobody works.
fn note_idle<S: Shelf>(
    alloc: Global,
    shelf: &mut S,
    demand: &[u8],
    instance: &Instance,
    cert: &Cert,
)
    requires { IsSoundInstance instance.now }
    ensures { S.told shelf.new ≡ S.told shelf.old }
{
    match idle_codes_text(alloc, demand, instance, cert) {
        Some(text) if !text.is_empty() => shelf.note(text.as_str()),
        _ => {}
    }
}

/// Notes of a search that ended with this status why no roster is allowed, with 1; else at which codes of
/// need nobody works, where there is a roster, and with 8 what is to be done where nothing is proved.
pub(crate) fn note_search<S: Shelf>(
    alloc: Global,
    shelf: &mut S,
    demand: &[u8],
    instance: &Instance,
    cert: &Cert,
    status: u8,
)
    requires { IsSoundInstance instance.now }
    ensures { S.told shelf.new ≡ S.told shelf.old }
{
    match status {
        1 => note_none(alloc, shelf, instance),
        _ => {
            note_idle(alloc, shelf, demand, instance, cert);
            note_unproved_day(alloc, shelf, instance, cert, status);
        }
    }
}
