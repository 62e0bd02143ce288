//! Where a rule may stand, and how many spans a day has.

use model_rosters::{List, Rule, Window};
use tree_span_cells::{SpanIndex, may_stand};

const ALL: Window = Window { lo: 1, hi: 96 };

/// Whether the rule may stand on the spans of a day of four periods that it should.
fn stands_as_it_should(rule: &Rule) -> bool {
    for (start, len, stands) in [(2, 2, true), (2, 3, false), (1, 3, true), (1, 1, false)] {
        if may_stand(rule, 4, start, len) != stands {
            return false;
        }
    }
    true
}

#[test]
fn stands_within_its_windows(rt: HostRuntime) {
    let rule = Rule {
        left: 0,
        cost: 0,
        right: List::new(rt.alloc()),
        span: Window { lo: 2, hi: 3 },
        first: ALL,
        last: Window { lo: 1, hi: 3 },
    };
    assert!(rt; stands_as_it_should(&rule));
}

#[test]
fn counts_every_span(rt: HostRuntime) {
    assert_eq!(rt; SpanIndex::new(96).count(), 4656);
    assert_eq!(rt; SpanIndex::new(4).count(), 10);
}
