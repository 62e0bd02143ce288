//! The page of a day of four periods as one whole text, and parts of others.
//!
//! The page of a day of four periods as one whole text; parts of others: a call centre's shift under a floor
//! and a ceiling, 96 periods, no roster, labels, groups, times of whole hours and of a night, a name with
//! time off and decimals beside an old roster, 64 employees with one row; tables and a calendar.

use crate::transcripts::{answer, has_answer, have_answers, shelf_of};
use command_shelf::MemoryShelf;
use std::alloc::Global;
use std::test::Fail;

/// The page of a day of four periods, behind its style.
const BLOCKS: &str = "\
</style>\n\
</head>\n\
<body>\n\
<main>\n\
<header><h1>Roster</h1><p>No allowed roster costs less.</p></header>\n\
<dl><div><dt>Total cost</dt><dd>10</dd></div><div><dt>Bound</dt><dd>\
10</dd></div><div><dt>Paid for shifts</dt><dd>10</dd></div><div><dt>\
Penalties</dt><dd>0</dd></div><div><dt>Penalty for <span class='chip w0'>\
a</span></dt><dd>0</dd></div></dl>\n\
<section><h2>Shifts</h2>\n\
<ul class='legend'><li><span class='chip w0'>a</span><span></span>work</li><li>\
<span class='chip i0'>.</span><span></span>no work</li></ul>\n\
<div class='scroll'><svg class='roster' role='group' aria-label='Shifts of the roster, one row a shift' \
viewBox='0 0 288 92' width='288' height='92'>\n\
<text class='mark' x='274' y='20'>price</text><text class='tick' x='76' y='20'>\
1</text><text class='tick' x='116' y='20'>2</text><text class='tick' x='156' y='20'>\
3</text><text class='tick' x='196' y='20'>4</text><g class='row' tabindex='0' role='img' id='r0' ari\
a-describedby='d0' aria-label='Shift 2: aaa., price 5'><rect class='hit' x='4' y='30' width='280' heig\
ht='26'/><text class='name' x='46' y='47'></text><text class='price' x='274' y='47'>\
5</text><text class='times' x='40' y='47'>2</text><rect class='w0' x='56' y='32' width='39' height='\
22'/><text class='w0' x='76' y='47'>a</text><rect class='w0' x='96' y='32' width='39' height='22'/>\
<text class='w0' x='116' y='47'>a</text><rect class='w0' x='136' y='32' width='39' height='22'/>\
<text class='w0' x='156' y='47'>a</text><rect class='i0' x='176' y='32' width='39' height='22'/>\
<text class='i0' x='196' y='47'>.</text></g>\n\
<g class='row' tabindex='0' role='img' id='r1' aria-describedby='d1' aria-label='Shift 1: .aaa, price \
5'><rect class='hit' x='4' y='56' width='280' height='26'/><text class='name' x='46' y='73'>\
</text><text class='price' x='274' y='73'>5</text><text class='times' x='40' y='73'>1</text>\
<rect class='i0' x='56' y='58' width='39' height='22'/><text class='i0' x='76' y='73'>\
.</text><rect class='w0' x='96' y='58' width='39' height='22'/><text class='w0' x='116' y='73'>\
a</text><rect class='w0' x='136' y='58' width='39' height='22'/><text class='w0' x='156' y='73'>\
a</text><rect class='w0' x='176' y='58' width='39' height='22'/><text class='w0' x='196' y='73'>\
a</text></g>\n\
</svg></div>\n\
<p class='hint'>Point at a shift, or go to it with the Tab key, and see how the rules derive it.</p>\
</section>\n\
<section><h2>Coverage</h2>\n\
<ul class='legend'><li><span class='key have'></span>at work and needed</li>\
<li><span class='key short'></span>short</li><li><span class='key over'>\
</span>surplus</li><li><span class='key need'></span>need</li><li>\
<span class='key floor'></span>floor</li><li><span class='key ceiling'>\
</span>ceiling</li></ul>\n\
<div class='charts'>\n\
<figure><figcaption><span class='chip w0'>a</span> </figcaption><div class='scroll'>\
<svg role='img' aria-label='Coverage of a. Needed by period: 1 2 2 1. At work: 1 2 2 1. Short: 0 0 0 0. Surplus: 0 0 0 0.' viewBox='0 0 2\
88 132' width='288' height='132'>\n\
<rect class='have' x='56' y='64' width='40' height='48'/><rect class='short' x='56' y='64' width='40\
' height='0'/><rect class='over' x='56' y='64' width='40' height='0'/>\
<rect class='have' x='96' y='16' width='40' height='96'/><rect class='short' x='96' y='16' width='40\
' height='0'/><rect class='over' x='96' y='16' width='40' height='0'/>\
<rect class='have' x='136' y='16' width='40' height='96'/><rect class='short' x='136' y='16' width='\
40' height='0'/><rect class='over' x='136' y='16' width='40' height='0'/>\
<rect class='have' x='176' y='64' width='40' height='48'/><rect class='short' x='176' y='64' width='\
40' height='0'/><rect class='over' x='176' y='64' width='40' height='0'/>\
<rect class='grid' x='56' y='16' width='160' height='1'/><rect class='grid' x='56' y='112' width='16\
0' height='1'/><text class='price' x='48' y='20'>2</text><text class='price' x='48' y='116'>\
0</text><rect class='grid' x='56' y='64' width='160' height='1'/><text class='price' x='48' y='68'>\
1</text><path class='need' d='M56 112V64H96V16H136V16H176V64H216V112'/>\
<path class='floor' d=''/><path class='ceiling' d=''/><text class='tick' x='76' y='127'>\
1</text><text class='tick' x='116' y='127'>2</text><text class='tick' x='156' y='127'>\
3</text><text class='tick' x='196' y='127'>4</text></svg></div></figure>\n\
</div></section>\n\
<div class='lists'>\n\
<section class='list'><h2>Codes</h2>\n\
<div class='scroll'><table><thead><tr><th>Code</th><th>Periods</th><th>Covered</th></tr></thead>\n\
<tbody>\n\
<tr><td>a</td><td>6</td><td>100.0 %</td></tr>\n\
<tr><td>.</td><td>2</td><td></td></tr>\n\
<tr><td>all</td><td></td><td>100.0 %</td></tr>\n\
</tbody></table></div></section>\n\
<section class='list'><h2>Employees</h2>\n\
<div class='scroll'><table><thead><tr><th>Group</th><th>Shifts</th><th>At least</th><th>At most</th>\
</tr></thead>\n\
<tbody>\n\
<tr><td>all</td><td>2</td><td>0</td><td>2</td></tr>\n\
</tbody></table></div></section>\n\
<section class='list'><h2>Begin and end</h2>\n\
<div class='scroll'><table><thead><tr><th>Time</th><th>Begin</th><th>End</th></tr></thead>\n\
<tbody>\n\
<tr><td>1</td><td>1</td><td>0</td></tr>\n\
<tr><td>2</td><td>1</td><td>0</td></tr>\n\
<tr><td>3</td><td>0</td><td>1</td></tr>\n\
<tr><td>4</td><td>0</td><td>1</td></tr>\n\
</tbody></table></div></section>\n\
<section class='list'><h2>List of shifts</h2>\n\
<div class='scroll'><table><thead><tr><th>Shift</th><th>Begin</th><th>End</th><th>Periods of work</th>\
<th>Paid time</th><th>Price</th><th>Codes</th></tr></thead>\n\
<tbody>\n\
<tr><td>2</td><td>1</td><td>3</td><td>3</td><td>3</td><td>5</td><td class='word'>aaa.</td></tr>\n\
<tr><td>1</td><td>2</td><td>4</td><td>3</td><td>3</td><td>5</td><td class='word'>.aaa</td></tr>\n\
</tbody></table></div></section>\n\
</div>\n\
<div class='derivations'><h2>How the rules derive each shift</h2>\n\
<pre class='derivation' id='d0'><b>Shift 2: aaa., price 5</b>\n\
word aaa.\n\
cost 5\n\
use 3 S 1 4\n\
rule S 0 = W R\n\
use 5 W 1 3\n\
rule W 2 = A len 2 3\n\
use 7 A 1 3\n\
rule A 1 = &#39;a&#39; A\n\
use 7 A 2 2\n\
rule A 1 = &#39;a&#39; A\n\
use 6 A 3 1\n\
rule A 1 = &#39;a&#39;\n\
use 8 R 4 1\n\
rule R 0 = &#39;.&#39;\n\
</pre>\n\
<pre class='derivation' id='d1'><b>Shift 1: .aaa, price 5</b>\n\
word .aaa\n\
cost 5\n\
use 2 S 1 4\n\
rule S 0 = R W\n\
use 8 R 1 1\n\
rule R 0 = &#39;.&#39;\n\
use 5 W 2 3\n\
rule W 2 = A len 2 3\n\
use 7 A 2 3\n\
rule A 1 = &#39;a&#39; A\n\
use 7 A 3 2\n\
rule A 1 = &#39;a&#39; A\n\
use 6 A 4 1\n\
rule A 1 = &#39;a&#39;\n\
</pre>\n\
</div>\n\
<footer><p>Made from these texts; <code>roster check RULES DEMAND PROOF</code> checks them.</p>\n\
<pre>9e7ac050104deb95688b4f70520a29c7fb6e2193a4fa0d6cc9fa1b9147b6503c  RULES\n\
956d3958acbfe3014da10a20206df515c360dcbba6c0d808c60351b19fcab7ea  DEMAND\n\
6461351c8fbc978e3a1b92db8c12bf6da9d42f569881a156828baecb4118b3f2  PROOF\n\
</pre></footer>\n\
</main>\n\
</body>\n\
</html>\n";

/// Whether the page of the day begins and ends as it should.
fn is_shown(alloc: Global) -> Result<bool, Fail> {
    let mut shelf = shelf_of(alloc, &[])?;
    let status = answer(alloc, &mut shelf, "page g1 two best")?;
    let said = shelf.said();
    Ok(
        status == 0
            && said.starts_with(b"<!DOCTYPE html>\n<html lang='en'>\n")
            && said.ends_with(BLOCKS.as_bytes()),
    )
}

#[test]
fn a_page_shows_its_roster(rt: HostRuntime) -> Result<(), Fail> {
    assert!(rt; is_shown(rt.alloc())?);
    Ok(())
}

/// What stands on other pages: of a call centre's shift under a floor and a ceiling, of 96 periods, of no
/// roster, under labels, with letters that HTML has a use for, with times of whole hours and of a night, and
/// with a name, time off and decimals, beside an old roster.
const PAGES: &str = "
~ page g3 centre shift
0 ..
<p>Nothing is proved of the cost.</p>
<rect class='i2' x='296' y='32' width='29' height='22'/><text class='i2' x='311' y='47'>m</text>
<rect class='i1' x='416' y='32' width='29' height='22'/><text class='i1' x='431' y='47'>p</text>
<text class='name' x='46' y='47'></text><text class='price' x='834' y='47'>28</text>
<rect class='have' x='266' y='80' width='30' height='32'/><rect class='short' x='266' y='48'
<path class='floor' d='M176 80H206'/><path class='ceiling' d='M176 16H206'/>
Short: 0 0 0 0 0 0 1 1 3 3 1 1 1 0 1 2 3 3 2 2 1 1 0 0. Surplus: 0
use 5 D 5 11
rule D 20 = B L B &#39;p&#39; B len 8 16
use 13 L 9 2
rule L 0 = &#39;m&#39; &#39;m&#39; begin 9 14
~ page day all_day long
0 ..
viewBox='0 0 1088 66' width='1088' height='66'>
<text class='tick' x='981' y='20'>93</text><g class='row'
<rect class='w0' x='996' y='32' width='9' height='22'/><text class='w0' x='1001' y='47'>a</text>
<rect class='short' x='1006' y='64' width='10' height='48'/>
~ page pair some none
0 ..
<p>No roster is allowed.</p></header>
<dl><div><dt>Total cost</dt><dd>none</dd></div><div><dt>Bound</dt><dd>none</dd></div></dl>
~ page g1 two best named
0 ..
<h1>&lt;Day&gt;</h1>
<span class='chip w0'>a</span><span>R&amp;D</span>work</li>
<tr><td>a R&amp;D</td><td>6</td>
<tr><td>2</td><td>7:00</td><td>8:30</td><td>3</td><td>1:30</td><td>5 E&amp;R</td>
<dt>Total cost</dt><dd>10 E&amp;R</dd>
<text class='price' x='298' y='47'>5 E&amp;R</text>
<text class='tick' x='56' y='20'>7:00</text><text class='tick' x='96' y='20'>7:30</text>
<text class='tick' x='176' y='127'>8:30</text><text class='tick' x='216' y='127'>9:00</text></svg>
~ page halves groups staff team
0 ..
<text class='name' x='118' y='47'>full time</text>
use 3 F 1 2
rule F 3 = &#39;a&#39; &#39;a&#39;
~ page g3 centre shift called
0 ..
<text class='tick' x='56' y='20'>7:00</text><text class='tick' x='116' y='20'>8:00</text>
<text class='tick' x='716' y='127'>18:00</text><text class='tick' x='776' y='127'>19:00</text></svg>
~ page day all_day long quarters
0 ..
<text class='tick' x='856' y='20'>20:00</text><text class='tick' x='936' y='20'>22:00</text>\
<text class='tick' x='1016' y='20'>0:00 +1</text><g
~ page g1 two best nights
0 ..
<text class='tick' x='56' y='20'>22:00</text><text class='tick' x='136' y='20'>0:00 +1</text>\
<text class='tick' x='216' y='20'>2:00 +1</text><g
~ page split one night worked early
0 ..
<p>Nothing is proved of the cost.</p></header>
<dl><div><dt>Total cost</dt><dd>0.02</dd></div><div><dt>Paid for shifts</dt><dd>0.01</dd></div>
<p>1 shift and 3 periods differ from the old roster. Letters that differ are underlined.</p>
aria-label='Shift 1: Ann a.a, price 0.01'>
<text class='name' x='70' y='47'>Ann</text>
<text class='w0' x='100' y='47'>a</text><path class='changed' d='M80 55H119'/><rect class='i0' x='120'
y='32' width='39' height='22'/><path class='changed' d='M120 55H159'/><rect class='w0' x='160'
<tr><td>a</td><td>8:00</td><td>16:00</td><td>1</td><td>0.01</td></tr>
<tr><td>0:00 +1</td><td>0</td><td>1</td></tr>
<th>Shift</th><th>Who</th><th>Begin</th>
<tr><td>1</td><td>Ann</td><td>0:00</td><td>8:00</td><td>1</td><td>16:00</td><td>0.01</td><td class='word'>a.a</td></tr>
<tr><td>1</td><td>Ann</td><td>16:00</td><td>0:00 +1</td><td>1</td><td></td><td></td><td></td></tr>
cost 0.01
<footer><p>Made from these texts; <code>roster value RULES DEMAND REPORT</code> checks them.</p>
<pre>8fed70b2d744dfeddce3de9a526a187545d0a0a9fcfcf43e0a725bda95cc7791  RULES
06a11a855e8e4e08d28a5dacb38593178875247b736113d0c8a9f5109a967175  DEMAND
81f4cfccc4f2aa965c8cce629662f639e587108652aa096b636dab644df71acb  REPORT
f8c05846768070b06cd2e7bd6ebcaf51569fa26bff7c0881c33a94fc20cc2c4f  LABELS
ab1f57b57ee7479d739a600ab555a9bf4738c2041cb4ee3716fb90d2efcc69f9  OLD
</pre></footer>
";

#[test]
fn other_pages_show_theirs(rt: HostRuntime) -> Result<(), Fail> {
    have_answers(rt.alloc(), PAGES)
}

/// The page of 64 employees with one shift, who have one row.
const CROWD: &str = " page letter crowd so_many
0 ..
viewBox='0 0 168 66' width='168' height='66'>
id='r0' aria-describedby='d0' aria-label='64 shifts: a, price 1'>
<text class='price' x='154' y='47'>1</text><text class='times' x='40' y='47'>64&#215;</text>
<rect class='over' x='56' y='48' width='40' height='64'/>
<dd>64</dd></div><div><dt>Penalties</dt><dd>128</dd></div>
";

/// Puts the certificate of their roster on the shelf.
fn put_crowd(alloc: Global, shelf: &mut MemoryShelf) -> Result<(), Fail> {
    let shifts = "shift a 1\n".repeat(alloc, 64)?;
    let text = [
        "proof 1\ncost 192\nbound 0\n",
        shifts.as_str(),
        "bare\nend\n",
    ]
    .concat(alloc)?;
    shelf.put("so_many", text.as_bytes())?;
    Ok(())
}

/// Whether their page is as it should be.
fn shows_crowd(alloc: Global) -> Result<bool, Fail> {
    let mut shelf = shelf_of(alloc, &[])?;
    put_crowd(alloc, &mut shelf)?;
    Ok(has_answer(alloc, &mut shelf, CROWD)?)
}

#[test]
fn equal_shifts_have_one_row_where_there_are_many(rt: HostRuntime) -> Result<(), Fail> {
    assert!(rt; shows_crowd(rt.alloc())?);
    Ok(())
}

/// Tables and a calendar, under labels; the UIDs are the same where the demand text has a comment.
const SHEETS: &str = "
~ table g1 two best called
0
shift,group,code,name,first,last,begin,end,price,employee,amount
1,,.,,1,1,7:00,7:30,5,,5
1,,a,\"'=desk, phone\",2,4,7:30,9:00,,,
2,,a,\"'=desk, phone\",1,3,7:00,8:30,5,,5
2,,.,,4,4,8:30,9:00,,,
~ table halves groups staff team
0
shift,group,code,name,first,last,begin,end,price,employee,amount
1,full time,a,,1,2,,,3,,3
2,H,a,,1,1,,,1,,1
2,H,.,,2,2,,,,,
~ calendar g1 two best called 2026-02-28
0
BEGIN:VCALENDAR\r
VERSION:2.0\r
PRODID:-//Lubishon//roster//EN\r
BEGIN:VEVENT\r
UID:20260228-1-b84e21df119f9cf9557e05daa9383b2c@roster\r
DTSTAMP:20260228T000000Z\r
DTSTART:20260228T073000\r
DTEND:20260228T090000\r
SUMMARY:Shift 1\r
DESCRIPTION:7:30-9:00 =desk\\, phone\r
END:VEVENT\r
BEGIN:VEVENT\r
UID:20260228-1-218789bf8dcd9bf28124e96dd7a66125@roster\r
DTSTAMP:20260228T000000Z\r
DTSTART:20260228T070000\r
DTEND:20260228T083000\r
SUMMARY:Shift 2\r
DESCRIPTION:7:00-8:30 =desk\\, phone\r
END:VEVENT\r
END:VCALENDAR\r
~ calendar g1 noted best called 2026-02-28
0 ..
UID:20260228-1-b84e21df119f9cf9557e05daa9383b2c@roster
UID:20260228-1-218789bf8dcd9bf28124e96dd7a66125@roster
";

#[test]
fn tables_and_calendars_list_their_rosters(rt: HostRuntime) -> Result<(), Fail> {
    have_answers(rt.alloc(), SHEETS)
}
