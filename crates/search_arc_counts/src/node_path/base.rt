//! The base cuts, and the box that they leave.

ghost use Rattle.std.specs.Prelude.{◌≡◌, IfOk};
ghost use Rattle.model_rosters.specs.Cuts.{base_cuts};
ghost use Rattle.model_rosters.specs.SoundInstance.{IsSoundInstance};
ghost use Rattle.search_arc_counts.specs.count_boxes.Paths.{IsBoxOf};
ghost use Rattle.lp_master_rows.specs.search_day.Days.{IsDay};

use crate::count_boxes::ArcBox;
use crate::node_path::turns::narrow;
use law_base_cuts::push_base_cuts;
use lp_master_rows::Day;
use model_rosters::{Cut, Instance, Memory};
use std::alloc::Global;

// The most base cuts that a day has.
const MOST_BASE_CUTS: usize = 16;

/// Returns the base cuts of an instance.
///
/// # Errors
///
/// `Memory` where memory runs out; nothing is kept then.
pub(crate) fn base_cuts(alloc: Global, instance: &Instance) -> Result<Vec<Cut>, Memory>
    requires { IsSoundInstance instance.now }
    ensures { IfOk result (λ cuts. cuts.items ≡ base_cuts instance.now) }
{
    let mut cuts = Vec::with_capacity(alloc, MOST_BASE_CUTS)?;
    push_base_cuts(&mut cuts, instance);
    Ok(cuts)
}

/// Returns a box that the base cuts of the instance have cut.
///
/// # Errors
///
/// `Memory` where memory runs out; nothing is kept then.
pub(crate) fn base_box(alloc: Global, day: &Day, cuts: &[Cut]) -> Result<ArcBox, Memory>
    requires day { IsDay day.now }
    requires cuts { cuts.now ≡ base_cuts day.now.instance.now }
    ensures { IfOk result (IsBoxOf day.now.instance.now day.now.graph.now cuts.now) }
{
    let mut arc_box = ArcBox::new(alloc, day.instance, day.graph)?;
    for cut in cuts {
        let _ = narrow(&mut arc_box, day.graph, cut);
    }
    Ok(arc_box)
}
