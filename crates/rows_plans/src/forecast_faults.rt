//! Forecasts that are refused, and the line of each.

/// Forecasts of the desk, and the line of the fault of each.
pub const FAULTS: [(&str, &str); 38] = [
    ("", "forecast: no line\n"),
    (";;\n , \"\"\n", "forecast: no line\n"),
    ("time;t;c\n\n", "forecast: no row behind the first line\n"),
    ("time;t\u{1};c\n", "forecast: line 1: a control sign\n"),
    (
        "time;t;c\n9:00;\"1;\u{85};1\n",
        "forecast: line 2: a control sign\n",
    ),
    (
        "\n\"time;t;c\n",
        "forecast: line 2: a quotation mark that nothing closes\n",
    ),
    (
        "\"time\" 2  3 ;t;c\n",
        "forecast: line 1: 2 3 right behind a quotation mark\n",
    ),
    (
        "time;t;c\nx;\"1\"2",
        "forecast: line 2: 2 right behind a quotation mark\n",
    ),
    (
        "Time;t;x\n",
        "forecast: line 1: Time where the word time stands: the first line names the columns\n",
    ),
    (
        ";t;c\n",
        "forecast: line 1: nothing where the word time stands: the first line names the columns\n",
    ),
    (
        "time;till2;x\n",
        "forecast: line 1: column till2: no code of work; the plan has t c x\n",
    ),
    (
        "time;meal;c\n",
        "forecast: line 1: column meal: no code of work; the plan has t c x\n",
    ),
    (
        "time t least most\n",
        "forecast: line 1: column most: no code of work; the plan has t c x\n",
    ),
    (
        "time;t;x\n",
        "forecast: line 1: column x: the plan has no need line of x\n",
    ),
    (
        "time;t;late  calls least\n",
        "forecast: line 1: column late calls least: the plan has no need line of x\n",
    ),
    ("time;t;c;till\n", "forecast: line 1: two columns t\n"),
    (
        "time,t least,c,till least,t\n",
        "forecast: line 1: two columns t least\n",
    ),
    (
        "time;t;c least\n",
        "forecast: line 1: no column c, which the plan needs\n",
    ),
    (
        "time;t;c\ntotal;1;x\n",
        "forecast: line 2: total where a time stands\n",
    ),
    (
        "time;t;c\n;1;1\n",
        "forecast: line 2: nothing where a time stands\n",
    ),
    (
        "time;t;c\n9:00+1;1;1\n",
        "forecast: line 2: 9:00+1 where a time stands\n",
    ),
    (
        "time;t;c\n9:00:30;1;1\n",
        "forecast: line 2: 9:00:30 where a time stands\n",
    ),
    (
        "time;t;c\n9:10;1;x\n",
        "forecast: line 2: 9:10 in the first row; the day begins at 9:00\n",
    ),
    (
        "time;t;c\n9:00;1;1\n9:15;1;1\n",
        "forecast: line 3: steps of 15 minutes; the plan's periods have 60\n",
    ),
    (
        "time;t;c\n9:00;1;1\n9:00;1;1\n",
        "forecast: line 3: steps of 0 minutes; the plan's periods have 60\n",
    ),
    (
        "time;t;c\n9:00;1;1\n12:00;1;1\n",
        "forecast: line 3: 12:00 is behind the end of the day, 12:00\n",
    ),
    (
        "time;t;c\n9:00;1;1\n10:00;1;1\n11:00;1;1\n12:00;1;1\n",
        "forecast: line 5: 12:00 is behind the end of the day, 12:00\n",
    ),
    (
        "time;t;c\n9:00;1;1\n10:00;1;1\n10:30;1;1\n",
        "forecast: line 4: 10:30 where 11:00 comes, by steps of 60 minutes\n",
    ),
    (
        "time;t;c\n9:00;1\n",
        "forecast: line 2: no number at 9:00 under c\n",
    ),
    (
        "time;t;c;t least\n9:00;1;1; \n",
        "forecast: line 2: no number at 9:00 under t least\n",
    ),
    (
        "time;t;c\n9:00;1;1;;9\n",
        "forecast: line 2: 9 stands under no heading\n",
    ),
    (
        "time;t;;c\n9:00;1;9;x\n",
        "forecast: line 2: 9 stands under no heading\n",
    ),
    (
        "time;t;c\n9:00;2.4;65\n",
        "forecast: line 2: 2.4 is no whole number\n",
    ),
    (
        "time;t;c\n9:00;2 4;65\n",
        "forecast: line 2: 2 4 is no whole number\n",
    ),
    (
        "time;t;c\n9:00;65;x\n",
        "forecast: line 2: 65 is not 0 to 64\n",
    ),
    (
        "time;t;c\n9:00;1;1\n10:00;1;1\n",
        "forecast: line 3: 2 rows of 60 minutes are 2:00 hours; the day has 3:00\n",
    ),
    (
        "time;t;c\n9:00;1;1\n11:00;1;1\n",
        "forecast: line 3: 2 rows of 120 minutes are 4:00 hours; the day has 3:00\n",
    ),
    (
        "time;c most;t;c;t least;t most;c least\n9:00;1;1;1;0;0;2\n10:00;1;1;1;2;1;2\n11:00;1;1;1;1;0;2\n",
        "forecast: t at 10:00: least 2 above most 1\n",
    ),
];

/// Forecasts of the ward, whose day goes from 6:00 to 7:00 of the next day, and the line of the fault of
/// each.
pub const NIGHT_FAULTS: [(&str, &str); 4] = [
    (
        "time;n;d;a\n6:00;1;1;1\n11:00;1;1;1\n16:00;1;1;1\n21:00;1;1;1\n2:00;1;1;1\n7:00;1;1;1\n",
        "forecast: line 7: 7:00 is behind the end of the day, 7:00+1\n",
    ),
    (
        "time;n;d;a\n6:00;1;1;1\n11:00;1;1;1\n16:00;1;1;1\n21:00;1;1;1\n1:00;1;1;1\n",
        "forecast: line 6: 1:00 where 2:00 comes, by steps of 300 minutes\n",
    ),
    (
        "time;n;d;a\n6:00;1;1;1\n7:00;1;1;1\n8:00;1;1;1\n9:00;1;1;1\n",
        "forecast: line 5: 4 rows of 60 minutes are 4:00 hours; the day has 25:00\n",
    ),
    (
        "time;n;d;a;a most;a least\n6:00;1;1;1;0;1\n",
        "forecast: a at 6:00: least 1 above most 0\n",
    ),
];
