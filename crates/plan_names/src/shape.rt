//! Names by their parts, so that two of them can be compared.

ghost use Rattle.std.specs.Prelude.{◌≡◌, [], Some, None};
ghost use Rattle.plan_names.specs.Same.{
  bare,
  of_lines,
  of_one,
  of_set,
  same_head,
  same_line,
  same_one,
  same_shape,
  same_tail,
  shape_of,
};
ghost use Rattle.plan_names.specs.Shapes.{own_line, own_shape};
ghost use Rattle.plan_names.specs.Views.{kind_of};

use crate::compared::{same_all, same_named, same_set, same_times};
use crate::names::RuleName;
use model_rosters::Window;
use plan_laws::{Activity, NamedLines};

/// A name with its parts: its form as a number, and each part, or one that says nothing.
#[derive(Clone, Copy, Drop)]
pub(crate) struct NameShape<'a> {
    form: u8,
    plus: u32,
    set: &'a [Activity],
    one: Option<Activity>,
    window: Option<Window>,
    line: Option<&'a NamedLines>,
    lines: &'a [NamedLines],
}

// Returns the shape of a name that has no part.
fn bare<'a>(form: u8) -> NameShape<'a>
    ensures { own_shape result ≡ bare form }
{
    NameShape {
        form,
        plus: 0,
        set: &[],
        one: None,
        window: None,
        line: None,
        lines: &[],
    }
}

// Returns the shape of a name of an activity.
fn of_one<'a>(form: u8, plus: u32, one: Activity) -> NameShape<'a>
    ensures { own_shape result ≡ of_one form plus one }
{
    NameShape {
        plus,
        one: Some(one),
        ..bare(form)
    }
}

// Returns the shape of a name of a set.
fn of_set(form: u8, plus: u32, set: &[Activity]) -> NameShape<'_>
    ensures { own_shape result ≡ of_set form plus set.now }
{
    NameShape {
        plus,
        set,
        ..bare(form)
    }
}

// Returns the shape of a name of a set and one of its activities.
fn of_both(form: u8, plus: u32, set: &[Activity], one: Activity) -> NameShape<'_>
    ensures { own_shape result ≡ record (of_set form plus set.now) { one = Some one } }
{
    NameShape {
        one: Some(one),
        ..of_set(form, plus, set)
    }
}

// Returns the shape of a name of duty lines.
fn of_lines(form: u8, lines: &NamedLines) -> NameShape<'_>
    ensures { own_shape result ≡ of_lines form lines.now.name lines.now.lines }
{
    NameShape {
        line: Some(lines),
        ..bare(form)
    }
}

/// Returns a name's shape.
pub(crate) fn shape(name: RuleName<'_>) -> NameShape<'_>
    ensures { own_shape result ≡ shape_of (kind_of name.entry) }
{
    match name {
        RuleName::Letter(plus, one) => of_one(0, plus, one),
        RuleName::Run(plus, one) => of_one(1, plus, one),
        RuleName::Block(plus, one) => of_one(2, plus, one),
        RuleName::FreeBlock(plus, set) => of_set(3, plus, set),
        RuleName::AnyList(plus, set) => of_set(4, plus, set),
        RuleName::OpenList(plus, set) => of_set(5, plus, set),
        RuleName::ListFrom(plus, set, one) => of_both(6, plus, set, one),
        RuleName::OtherList(plus, set, one) => of_both(7, plus, set, one),
        RuleName::Stretch(plus, set, range) => NameShape {
            window: Some(range),
            ..of_set(8, plus, set)
        },
        RuleName::Rest(plus, one, window) => NameShape {
            window,
            ..of_one(9, plus, one)
        },
        RuleName::Off => bare(10),
        RuleName::Step => bare(11),
        RuleName::Steps => bare(12),
        RuleName::Lead => bare(13),
        RuleName::Duty(lines) => of_lines(14, lines),
        RuleName::Day(lines) => of_lines(15, lines),
        RuleName::AnyDay(lines) => NameShape { lines, ..bare(16) },
    }
}

// Says whether two activities are the same, or there is none.
fn same_one(one: Option<Activity>, two: Option<Activity>) -> bool
    ensures { result ≡ same_one one two }
{
    one == two
}

// Says whether the lines of two duty names are the same, or there is none.
fn same_line(one: Option<&NamedLines>, two: Option<&NamedLines>) -> bool
    ensures { result ≡ same_line (own_line one.entry) (own_line two.entry) }
{
    match (one, two) {
        (Some(one), Some(two)) => same_named(one, two),
        (None, None) => true,
        (Some(_), None) => false,
        (None, Some(_)) => false,
    }
}

// Says whether two shapes have the same form, plus and set.
fn same_head(one: NameShape<'_>, two: NameShape<'_>) -> bool
    ensures { result ≡ same_head (own_shape one.entry) (own_shape two.entry) }
{
    one.form == two.form && one.plus == two.plus && same_set(one.set, two.set)
}

// Says whether two shapes have the same activity, window and duty lines.
fn same_tail(one: NameShape<'_>, two: NameShape<'_>) -> bool
    ensures { result ≡ same_tail (own_shape one.entry) (own_shape two.entry) }
{
    same_one(one.one, two.one)
        && same_times(one.window, two.window)
        && same_line(one.line, two.line)
        && same_all(one.lines, two.lines)
}

/// Says whether two shapes are the same.
pub(crate) fn same_shape(one: NameShape<'_>, two: NameShape<'_>) -> bool
    ensures { result ≡ same_shape (own_shape one.entry) (own_shape two.entry) }
{
    same_head(one, two) && same_tail(one, two)
}
