//! What is said of a curve.

ghost use Rattle.std.specs.Prelude.{◌≡◌, ◌++◌, [], ◌∷◌, length, map, IfOk, OnOk};
ghost use Rattle.std.specs.Option.{option_copied};
ghost use Rattle.text_lines.specs.Written.{written, tail};
ghost use Rattle.text_certificates.specs.Written.{amount_words};
ghost use Rattle.search_days.specs.day_curve.CurveText.{point_of, point_words, count_words, curve_text, team_word, team_words};

use model_rosters::{List, Memory};
use search_branch_price::Found;
use std::alloc::Global;
use text_lines::{field, put, word};

/// What is said of one point of a curve.
#[derive(Clone, Copy, Debug, PartialEq, Eq, Drop)]
pub struct CurvePoint {
    /// The greatest number of the team.
    pub heads: u32,
    /// What the roster costs, or none where there is no roster.
    pub cost: Option<u64>,
    /// The bound; none says that no roster is allowed.
    pub bound: Option<u64>,
    /// How many nodes the search processed.
    pub processed: u32,
    /// How many of them it split without prices.
    pub failed: u32,
}

impl CurvePoint {
    /// Returns what is said of a point, by its greatest number and what was found there.
    pub fn of(heads: u32, found: &Found) -> CurvePoint
        ensures { result ≡ point_of heads found.now }
    {
        CurvePoint {
            heads,
            cost: found.cert.cost,
            bound: found.cert.bound,
            processed: found.processed,
            failed: found.failed,
        }
    }
}

// Appends a space, a word, and a number or `none`.
fn amount(out: &mut List<u8>, name: &[u8], value: Option<u64>) -> Result<(), Memory>
    ensures { OnOk result (out.new ≡ out.old ++ tail (amount_words name.now value)) }
{
    word(out, name)?;
    match value {
        None => word(out, b"none"),
        Some(value) => field(out, value),
    }
}

// Writes the line of the number of points.
fn count_line(out: &mut List<u8>, count: u64) -> Result<(), Memory>
    ensures { OnOk result (out.new ≡ out.old ++ written (count_words count ∷ [])) }
{
    put(out, b"curve")?;
    field(out, count)?;
    out.push(b'\n')?;
    Ok(())
}

// Begins the line of a point: all employees are counted, or those of the group of a name.
fn team(out: &mut List<u8>, group: Option<&str>) -> Result<(), Memory>
    ensures { OnOk result (out.new ≡ out.old ++ team_word (option_copied group.entry)
        ++ tail (team_words (option_copied group.entry))) }
{
    match group {
        Some(name) => {
            put(out, b"group")?;
            word(out, name.as_bytes())
        }
        None => put(out, b"heads"),
    }
}

// Writes the line of a point.
fn point_line(out: &mut List<u8>, group: Option<&str>, point: &CurvePoint) -> Result<(), Memory>
    ensures { OnOk result (out.new ≡ out.old
        ++ written (point_words (option_copied group.entry) point.now ∷ [])) }
{
    team(out, group)?;
    field(out, u64::from(point.heads))?;
    amount(out, b"cost", point.cost)?;
    amount(out, b"bound", point.bound)?;
    amount(out, b"processed", Some(u64::from(point.processed)))?;
    amount(out, b"failed", Some(u64::from(point.failed)))?;
    out.push(b'\n')?;
    Ok(())
}

// Writes the lines of the points.
fn point_lines(out: &mut List<u8>, group: Option<&str>, points: &[CurvePoint]) -> Result<(), Memory>
    ensures { OnOk result (out.new ≡ out.old
        ++ written (map (point_words (option_copied group.entry)) points.now)) }
{
    for point in points {
        point_line(out, group, point)?;
    }
    Ok(())
}

/// Returns what is said of a curve: the line `curve COUNT`, and for each point in order the line `heads H
/// cost X bound X processed P failed F`, where X is a number or `none`. A curve over the employees of a group
/// has `group NAME H` in place of `heads H`.
///
/// # Errors
///
/// `Memory` where memory runs out; there is no text then.
pub fn write_curve(
    alloc: Global,
    group: Option<&str>,
    points: &[CurvePoint],
) -> Result<List<u8>, Memory>
    ensures { IfOk result (λ text. text ≡ curve_text (option_copied group.entry) points.now) }
{
    let mut out = List::new(alloc);
    count_line(&mut out, points.len() as u64)?;
    point_lines(&mut out, group, points)?;
    Ok(out)
}
