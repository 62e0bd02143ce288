//! What the words of the command line ask for.

ghost use Rattle.std.specs.Prelude.{◌≡◌, map, string_bytes};
ghost use Rattle.page_command.specs.Run.{
  form_for,
  form_of,
  form_on,
  labelled_form,
  last_form,
  shift_form,
  shift_of,
  shown_form,
};
ghost use Rattle.page_command.specs.Asked.{asked};
ghost use Rattle.page_views.specs.Kinds.{first_word};

use page_csv::{Date, date_of};
use page_views::{CalendarDay, FirstWord, first_word};
use text_lines::read_within;

/// What the words of the command line ask for.
#[derive(Clone, Copy, Drop)]
pub enum Form<'a> {
    /// What shows a roster, by the rules, demand and proof texts under names.
    Shown {
        word: FirstWord,
        rules: &'a str,
        demand: &'a str,
        proof: &'a str,
    },
    /// The same under the labels text under a name.
    Labelled {
        word: FirstWord,
        rules: &'a str,
        demand: &'a str,
        proof: &'a str,
        labels: &'a str,
    },
    /// The page under the labels text under a name, beside the old text under another.
    Beside {
        rules: &'a str,
        demand: &'a str,
        proof: &'a str,
        labels: &'a str,
        old: &'a str,
    },
    /// The calendar on a day, under the labels text under a name.
    Dated {
        day: CalendarDay,
        rules: &'a str,
        demand: &'a str,
        proof: &'a str,
        labels: &'a str,
    },
    /// The words are of no form.
    None,
}

// Reads a word and the names of three texts.
fn shown_form<'a>(word: &str, rules: &'a str, demand: &'a str, proof: &'a str) -> Form<'a>
    ensures { asked result ≡ shown_form (first_word word.now) rules.now demand.now proof.now }
{
    match first_word(word) {
        None => Form::None,
        Some(word) => Form::Shown {
            word,
            rules,
            demand,
            proof,
        },
    }
}

// Reads a word and the names of three texts and of a labels text.
fn labelled_form<'a>(
    word: &str,
    rules: &'a str,
    demand: &'a str,
    proof: &'a str,
    labels: &'a str,
) -> Form<'a>
    ensures { asked result ≡ labelled_form (first_word word.now) rules.now demand.now proof.now labels.now }
{
    match first_word(word) {
        None => Form::None,
        Some(word) => Form::Labelled {
            word,
            rules,
            demand,
            proof,
            labels,
        },
    }
}

// Returns the form of a calendar, where there is a day, of all shifts or of the one of a number.
fn form_on<'a>(
    date: Option<Date>,
    shift: Option<u32>,
    rules: &'a str,
    demand: &'a str,
    proof: &'a str,
    labels: &'a str,
) -> Form<'a>
    ensures { asked result ≡ form_on date shift rules.now demand.now proof.now labels.now }
{
    match date {
        None => Form::None,
        Some(date) => Form::Dated {
            day: CalendarDay { date, shift },
            rules,
            demand,
            proof,
            labels,
        },
    }
}

// Reads a word, the names of three texts and of a labels text, and the name of an old text or a day.
#[tactic(auto, unfolding(crate::specs::Run::last_form))]
fn last_form<'a>(
    word: &str,
    rules: &'a str,
    demand: &'a str,
    proof: &'a str,
    labels: &'a str,
    last: &'a str,
) -> Form<'a>
    ensures { asked result ≡ last_form word.now rules.now demand.now proof.now labels.now last.now }
{
    if word == "page" {
        return Form::Beside {
            rules,
            demand,
            proof,
            labels,
            old: last,
        };
    }
    if word == "calendar" {
        return form_on(date_of(last.as_bytes()), None, rules, demand, proof, labels);
    }
    Form::None
}

// Returns the number of a shift that a word says, 1 to 64.
fn shift_of(word: &str) -> Option<u32>
    ensures { result ≡ shift_of word.now }
{
    match read_within(1, 64, (), (), word.as_bytes()) {
        Ok(number) => Some(number as u32),
        Err(()) => None,
    }
}

// Returns the form of a calendar of one shift, where there is a number and a day.
fn form_for<'a>(
    shift: Option<u32>,
    date: Option<Date>,
    rules: &'a str,
    demand: &'a str,
    proof: &'a str,
    labels: &'a str,
) -> Form<'a>
    ensures { asked result ≡ form_for shift date rules.now demand.now proof.now labels.now }
{
    match shift {
        None => Form::None,
        Some(_) => form_on(date, shift, rules, demand, proof, labels),
    }
}

// Reads a word, the names of three texts and of a labels text, a day and the number of a shift.
#[tactic(auto, unfolding(crate::specs::Run::shift_form))]
fn shift_form<'a>(
    word: &str,
    rules: &'a str,
    demand: &'a str,
    proof: &'a str,
    labels: &'a str,
    day: &str,
    number: &str,
) -> Form<'a>
    ensures { asked result ≡ shift_form word.now rules.now demand.now proof.now labels.now day.now
        number.now }
{
    if word == "calendar" {
        let date = date_of(day.as_bytes());
        return form_for(shift_of(number), date, rules, demand, proof, labels);
    }
    Form::None
}

/// Returns what words ask for.
pub fn form_of(words: &[String]) -> Form<'_>
    ensures { asked result ≡ form_of (map string_bytes words.now) }
{
    match words {
        [word, rules, demand, proof] => shown_form(
            word.as_str(),
            rules.as_str(),
            demand.as_str(),
            proof.as_str(),
        ),
        [word, rules, demand, proof, labels] => labelled_form(
            word.as_str(),
            rules.as_str(),
            demand.as_str(),
            proof.as_str(),
            labels.as_str(),
        ),
        [word, rules, demand, proof, labels, last] => last_form(
            word.as_str(),
            rules.as_str(),
            demand.as_str(),
            proof.as_str(),
            labels.as_str(),
            last.as_str(),
        ),
        [word, rules, demand, proof, labels, day, number] => shift_form(
            word.as_str(),
            rules.as_str(),
            demand.as_str(),
            proof.as_str(),
            labels.as_str(),
            day.as_str(),
            number.as_str(),
        ),
        _ => Form::None,
    }
}
