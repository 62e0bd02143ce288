//! Reports in place of certificates, and old rosters beside which a page is shown.
//!
//! What is said of them, and why they are refused.

use crate::transcripts::have_answers;
use std::test::Fail;

/// Reports in place of certificates, which are valued.
const REPORTS: &str = "
~ table g1 two report
0
shift,group,code,name,first,last,begin,end,price,employee,amount
1,,.,,1,1,,,5,,5
1,,a,,2,4,,,,,
2,,a,,1,3,,,5,,5
2,,.,,4,4,,,,,
~ page g1 two report
0 ..
<p>Nothing is proved of the cost.</p>
<dt>Total cost</dt><dd>10</dd></div><div><dt>Paid for shifts</dt><dd>10</dd></div>
aria-label='Shift 1: .aaa, price 5'>
~ page halves groups team_report team
0 ..
<p>Nothing is proved of the cost.</p>
<dt>Total cost</dt><dd>4</dd></div>
~ page g1 two four
1
shift 1 aaaa: no shift
need a 1 2 2 1
have a 1 1 1 1
short a 0 1 1 0
over a 0 0 0 0
~ page g1 two no_roster
5
roster: line 3: no roster
~ page g1 two no_letters twice
5
roster: line 3: unknown line
~ page g1 two four twice
5
labels: line 2: said twice
";

#[test]
fn reports_are_valued(rt: HostRuntime) -> Result<(), Fail> {
    have_answers(rt.alloc(), REPORTS)
}

/// Old rosters beside which a page is shown, and why they are refused; they are read and not judged.
const OLD: &str = "
~ page g1 two best called high
0 ..
<p>No allowed roster costs less.</p>
~ page g1 two best called cut
5
old: shift 2: wrong length
~ page g1 two best called empty
5
old: the text ends early
~ page g1 two best called no_letters
5
old: line 3: unknown line
";

#[test]
fn old_rosters_are_read(rt: HostRuntime) -> Result<(), Fail> {
    have_answers(rt.alloc(), OLD)
}
