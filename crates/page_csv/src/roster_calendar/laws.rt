//! The laws on folds, escapes and dates of a calendar.

ghost use Rattle.std.specs.Prelude.{ℕ, pos, ◌+ℤ◌, ◌≡◌, true, List};
ghost use Rattle.std.specs.List.{list_all};
ghost use Rattle.std.specs.Str.{is_utf8};
ghost use Rattle.page_csv.specs.roster_calendar.Dates.{next_day};
ghost use Rattle.page_csv.specs.roster_calendar.DayNumbers.{IsDay, day_number};
ghost use Rattle.page_csv.specs.roster_calendar.Escapes.{escaped, is_text, unescaped};
ghost use Rattle.page_csv.specs.roster_calendar.Folds.{folds_whole, is_line, is_narrow, plain_text, text_of, unfolded};
ghost use Rattle.page_csv.specs.declared.roster_calendar.date.Date.{Date};

/// States a law: without its folds, the text of lines is the lines, each with its end, where no line holds a
/// carriage return and no space begins one.
pub fn unfolding_gives_lines_back()
    ensures { (lines : List (List ℕ)) → list_all is_line lines ≡ true → unfolded (text_of lines) ≡ plain_text lines }
{}

/// States a law: no fold of the text of such lines stands within a character, but before its first byte.
pub fn folds_stand_before_characters()
    ensures { (lines : List (List ℕ)) → list_all is_line lines ≡ true → folds_whole (text_of lines) ≡ true }
{}

/// States a law: no row of the text of such lines has more than 75 bytes before its end, where the lines are
/// UTF-8.
pub fn rows_are_narrow()
    ensures { (lines : List (List ℕ)) → list_all is_line lines ≡ true → list_all is_utf8 lines ≡ true
        → is_narrow 0 (text_of lines) ≡ true }
{}

/// States a law: a value's text says the value.
pub fn unescaping_gives_value_back()
    ensures { (value : List ℕ) → unescaped (escaped value) ≡ value }
{}

/// States a law: a value's text is one that RFC 5545 admits: no comma, no semicolon, no backslash and no line
/// feed of the value stands in it bare.
pub fn escaped_values_are_texts()
    ensures { (value : List ℕ) → is_text (escaped value) ≡ true }
{}

/// States a law: the next day has the next number among the days of the calendar.
pub fn next_day_is_one_later()
    ensures { (d : Date) → IsDay d → day_number (next_day d) ≡ day_number d +ℤ pos 1 }
{}
