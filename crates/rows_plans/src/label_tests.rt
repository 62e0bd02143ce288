//! Labels of the two plans.

use crate::plans::{shop, ward};
use plan_labels::labels_text;
use plan_meaning::Plan;
use std::alloc::Global;
use std::test::Fail;

/// The labels of the shop.
const SHOP: &str =
    "title Shop, Saturday\nclock 9:00 60\ncode t till\ncode c counter\ncode s shelves\n\
    code m meal\noff .\nmoney EUR\ndecimals 2\n";

/// The labels of the ward, whose handovers are paid.
const WARD: &str = "title Ward, Sunday\nclock 6:00 30\ncode n care\ncode d files\ncode a help\n\
    code h handover\npaid h yes\ncode i aides' handover\npaid i yes\ncode m meal\noff .\n\
    group Nurse nurses\ngroup Aide aides\nmoney EUR\ndecimals 2\n";

// Whether these are the labels of a plan.
fn are_labels(alloc: Global, plan: &Plan, want: &str) -> bool {
    match labels_text(alloc, plan) {
        Ok(text) => text.as_slice() == want.as_bytes(),
        Err(_) => false,
    }
}

#[test]
fn labels_are_said(rt: HostRuntime) -> Result<(), Fail> {
    let shop = shop(rt.alloc())?;
    let ward = ward(rt.alloc())?;
    let said = are_labels(rt.alloc(), &shop, SHOP) && are_labels(rt.alloc(), &ward, WARD);
    drop(shop);
    drop(ward);
    assert!(rt; said);
    Ok(())
}
