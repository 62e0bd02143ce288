//! Which code a heading calls.

ghost use Rattle.std.specs.Prelude.{◌≡◌, [], ◌∷◌, length};
ghost use Rattle.plan_forecast.specs.Headings.{asked_by, called, called_so, calls, is_title, suffix};

use crate::table::{Asked, Kind};
use plan_meaning::PlanCode;

/// How a heading says which code it is of.
#[derive(Clone, Copy, Debug, PartialEq, Eq, Drop)]
pub enum Way {
    /// By its letter.
    ByCode,
    /// By what it is called.
    ByName,
}

/// Returns what stands in a heading behind its code or name.
#[tactic(auto, unfolding(crate::specs::Headings::suffix))]
pub(crate) fn suffix(kind: Kind) -> &'static [u8]
    ensures { result.now ≡ suffix kind }
{
    match kind {
        Kind::Need => b"",
        Kind::Least => b" least",
        Kind::Most => b" most",
    }
}

// Whether a heading is this, and then how many of it are asked.
#[tactic(auto, unfolding(crate::specs::Headings::is_title))]
fn is_title(base: &[u8], kind: Kind, title: &[u8]) -> bool
    ensures { result ≡ is_title base.now kind title.now }
{
    title.starts_with(base) && &title[base.len()..] == suffix(kind)
}

// Whether a heading calls a code of work so.
#[tactic(auto, unfolding(crate::specs::Headings::calls))]
fn calls(way: Way, kind: Kind, title: &[u8], code: &PlanCode) -> bool
    ensures { result ≡ calls way kind title.now code.now }
{
    match way {
        Way::ByCode => code.work && is_title(&[code.code], kind, title),
        Way::ByName => code.work && is_title(code.words.as_slice(), kind, title),
    }
}

// Returns what a heading asks of the first code that it calls so.
fn called(way: Way, kind: Kind, title: &[u8], codes: &[PlanCode]) -> Option<Asked>
    ensures { result ≡ called way kind title.now codes.now }
{
    for code in codes {
        if calls(way, kind, title, code) {
            return Some(Asked {
                code: code.code,
                kind,
            });
        }
    }
    None
}

// Returns what a heading asks, where it calls a code so.
fn called_so(way: Way, title: &[u8], codes: &[PlanCode]) -> Option<Asked>
    ensures { result ≡ called_so way title.now codes.now }
{
    if let Some(asked) = called(way, Kind::Need, title, codes) {
        return Some(asked);
    }
    if let Some(asked) = called(way, Kind::Least, title, codes) {
        return Some(asked);
    }
    called(way, Kind::Most, title, codes)
}

/// Returns what a heading asks: a code of work goes before what one is called.
pub(crate) fn asked_by(codes: &[PlanCode], title: &[u8]) -> Option<Asked>
    ensures { result ≡ asked_by codes.now title.now }
{
    match called_so(Way::ByCode, title, codes) {
        Some(asked) => Some(asked),
        None => called_so(Way::ByName, title, codes),
    }
}
