//! Roster texts and reports that are read, and refused ones with their faults.

ghost use Rattle.std.specs.Prelude.{IfOk};
ghost use Rattle.model_rosters.specs.SoundInstance.{IsSoundInstance};

use check_values::read_roster;
use model_rosters::{Instance, Shift};
use std::alloc::Global;
use std::test::Fail;
use text_demand::read_demand;
use text_rules::read_rules;

/// A day of four periods with one code, and the names of two groups.
const RULES: &str = "
periods 4
work a
start S
rule S 0 = F
rule S 0 = H
rule F 1 = 'a' 'a' 'a' 'a'
rule H 2 = 'a' 'a' 'a' 'a'
";

const PLAIN: &str = "heads 0 64\n";

const GROUPED: &str = "group H 0 4\ngroup F 0 4\n";

// The instance of a demand text.
fn instance(alloc: Global, demand: &str) -> Result<Instance, Fail>
    ensures { IfOk result IsSoundInstance }
{
    let Ok(grammar) = read_rules(alloc, RULES.as_bytes()) else {
        return Err(Fail::from("rules"));
    };
    match read_demand(alloc, grammar, demand.as_bytes()) {
        Ok(instance) => Ok(instance),
        Err(_) => Err(Fail::from("demand")),
    }
}

// Whether a shift has this group and this word, and no price.
fn is_shift(shift: &Shift, group: u8, word: &str) -> bool {
    shift.group == group && shift.word.as_slice() == word.as_bytes() && shift.price == 0
}

// Whether these are the shifts.
fn are_shifts(shifts: &[Shift], wanted: &[(u8, &str)]) -> bool {
    shifts.len() == wanted.len()
        && shifts
            .iter()
            .zip(wanted)
            .all(|(shift, (group, word))| is_shift(shift, *group, word))
}

// Whether a text says these shifts for an instance.
fn says(alloc: Global, instance: &Instance, text: &str, wanted: &[(u8, &str)]) -> bool
    requires { IsSoundInstance instance.now }
{
    match read_roster(alloc, instance, text.as_bytes()) {
        Ok(shifts) => are_shifts(shifts.as_slice(), wanted),
        Err(_) => false,
    }
}

/// A demand text, a roster text, and the group and word of each shift that it says.
type Row<'a> = (&'a str, &'a str, &'a [(u8, &'a str)]);

/// A price behind a word counts for nothing; groups count from 1, in the order of their lines; of a report
/// only the lines of shifts are read.
static ROWS: [Row<'static>; 3] = [
    (
        PLAIN,
        "shift aaaa\r\nshift 7 340282366920938463463374607431768211456 # wide\n\tshift x~! 0\n",
        &[(0, "aaaa"), (0, "7"), (0, "x~!")],
    ),
    (
        GROUPED,
        "shift F aaaa 1\nshift H aaaa\nshift F F\n",
        &[(2, "aaaa"), (1, "aaaa"), (2, "F")],
    ),
    (
        PLAIN,
        "report 2\ncost 7\nshift aaaa 4\nneed b 1 2\nreport 1\nshift aaaa\nproof 1\n",
        &[(0, "aaaa"), (0, "aaaa")],
    ),
];

// Whether the text of a row says its shifts.
fn has_shifts(alloc: Global, row: &Row<'_>) -> Result<bool, Fail> {
    let (demand, text, wanted) = row;
    let instance = instance(alloc, demand)?;
    Ok(says(alloc, &instance, text, wanted))
}

#[test]
fn texts_have_their_shifts(rt: HostRuntime) -> Result<(), Fail> {
    for row in &ROWS {
        assert!(rt; has_shifts(rt.alloc(), row)?, "{}", row.1);
    }
    Ok(())
}
