//! Codes of work, pauses and time off.

ghost use Rattle.std.specs.Prelude.{◌≡◌, ◌++◌, [], ◌∷◌, OnOk};
ghost use Rattle.text_lines.specs.Written.{written};
ghost use Rattle.plan_labels.specs.LabelText.{all_pause_lines, all_work_lines, code_line, code_lines, paid_lines, pause_lines, work_lines};

use crate::line::{three_words, two_words};
use model_rosters::{List, Memory};
use plan_meaning::{Plan, PlanCode};

// Appends what a code is called.
fn code_line(out: &mut List<u8>, code: &PlanCode) -> Result<(), Memory>
    ensures { OnOk result (out.new ≡ out.old ++ written (code_line code.now ∷ [])) }
{
    three_words(out, b"code", &[code.code], code.words.as_slice())
}

// Appends the line of a code of work.
#[tactic(auto, unfolding(crate::specs::LabelText::work_lines))]
fn work_line(out: &mut List<u8>, code: &PlanCode) -> Result<(), Memory>
    ensures { OnOk result (out.new ≡ out.old ++ written (work_lines code.now)) }
{
    if !code.work {
        return Ok(());
    }
    code_line(out, code)
}

// Appends that a pause which costs is paid.
#[tactic(auto, unfolding(crate::specs::LabelText::paid_lines))]
fn paid_line(out: &mut List<u8>, code: &PlanCode) -> Result<(), Memory>
    ensures { OnOk result (out.new ≡ out.old ++ written (paid_lines code.now)) }
{
    if code.hour == 0 {
        return Ok(());
    }
    three_words(out, b"paid", &[code.code], b"yes")
}

// Appends the line of a pause, and behind it whether it is paid.
#[tactic(auto, unfolding(crate::specs::LabelText::pause_lines))]
fn pause_line(out: &mut List<u8>, code: &PlanCode) -> Result<(), Memory>
    ensures { OnOk result (out.new ≡ out.old ++ written (pause_lines code.now)) }
{
    if code.work {
        return Ok(());
    }
    code_line(out, code)?;
    paid_line(out, code)
}

// Appends the line of each code of work.
fn work_lines(out: &mut List<u8>, codes: &[PlanCode]) -> Result<(), Memory>
    ensures { OnOk result (out.new ≡ out.old ++ written (all_work_lines codes.now)) }
{
    for code in codes {
        work_line(out, code)?;
    }
    Ok(())
}

// Appends the lines of each pause.
fn pause_lines(out: &mut List<u8>, codes: &[PlanCode]) -> Result<(), Memory>
    ensures { OnOk result (out.new ≡ out.old ++ written (all_pause_lines codes.now)) }
{
    for code in codes {
        pause_line(out, code)?;
    }
    Ok(())
}

/// Appends the lines of the codes of work, then of the pauses, then of time off.
///
/// # Errors
///
/// `Memory` where memory runs out; a part may stand in `out` then.
pub(crate) fn code_lines(out: &mut List<u8>, plan: &Plan) -> Result<(), Memory>
    ensures { OnOk result (out.new ≡ out.old ++ written (code_lines plan.now)) }
{
    work_lines(out, plan.codes.as_slice())?;
    pause_lines(out, plan.codes.as_slice())?;
    two_words(out, b"off", b".")
}
