//! What the words ask for.

ghost use Rattle.std.specs.Prelude.{◌≡◌, IfSome, map, string_bytes};
ghost use Rattle.std.specs.Option.{option_copied};
ghost use Rattle.command_searches.specs.Limits.{IsLimit};
ghost use Rattle.command_line.specs.Form.{
  before_s,
  curve_form,
  form_of,
  kind_of,
  limit_of,
  long_form,
  longest_form,
  make_form,
  most_of,
  number_of_make,
  rank_form,
  relax_form,
  seconds_limit,
  short_form,
  shortest_form,
  solve_form,
  turns_limit,
};
ghost use Rattle.command_line.specs.Asked.{asked, HasNumbers, IsMost};

use command_searches::limit::Limit;
use text_lines::read_within;
use text_relaxed_days::Kind;

/// What the words of the command line ask for.
#[derive(Clone, Copy, Drop)]
pub enum Form<'a> {
    /// The price of a word by the rules text under a name, from its start name or from another name on.
    Explain {
        rules: &'a str,
        word: &'a str,
        start: Option<&'a str>,
    },
    /// The first trees of the day by cost, at most so many, by the rules text under a name, likewise.
    Rank {
        rules: &'a str,
        most: u32,
        start: Option<&'a str>,
    },
    /// The codes that may follow a prefix, by the rules text under a name, likewise.
    Next {
        rules: &'a str,
        prefix: &'a str,
        start: Option<&'a str>,
    },
    /// The shifts that fit a pattern, by the rules text under a name, likewise.
    Fits {
        rules: &'a str,
        pattern: &'a str,
        start: Option<&'a str>,
    },
    /// Whether a certificate is accepted, by the rules, demand and proof texts under names.
    Check {
        rules: &'a str,
        demand: &'a str,
        proof: &'a str,
    },
    /// What a roster comes to that was stated, by the rules, demand and roster texts under names.
    Value {
        rules: &'a str,
        demand: &'a str,
        roster: &'a str,
    },
    /// The demand that remains where the shifts of a roster are kept, by the texts of a value.
    Rest {
        rules: &'a str,
        demand: &'a str,
        roster: &'a str,
    },
    /// The rules text under a name with each cost 0.
    RelaxRules {
        rules: &'a str,
    },
    /// The day of the rules and demand texts under names with its floors, or its ceilings, counted in place
    /// of being strict.
    RelaxDemand {
        rules: &'a str,
        demand: &'a str,
        kind: Kind,
    },
    /// What the nodes of a certificate show on a day that it need not have been found for, by the texts of a
    /// check.
    Reuse {
        rules: &'a str,
        demand: &'a str,
        proof: &'a str,
    },
    /// A roster of least cost by the rules and demand texts under names, found within a limit; its
    /// certificate is stored under the name of the proof.
    Solve {
        rules: &'a str,
        demand: &'a str,
        proof: &'a str,
        limit: Limit,
        /// The name of the proof text of an old certificate, with which the search begins.
        from: Option<&'a str>,
    },
    /// The same for each greatest head count of the day, or of the group of a name; the certificates are
    /// stored under the name of the proof, a full stop and the head count.
    Curve {
        rules: &'a str,
        demand: &'a str,
        proof: &'a str,
        limit: Limit,
        group: Option<&'a str>,
    },
    /// A roster of least cost for a day that is made from a number, found within a limit; its certificate is
    /// stored under the name of the proof.
    Make {
        number: u32,
        proof: &'a str,
        limit: Limit,
    },
    /// Nothing that the program does.
    None,
}

// Returns the turns that a word says, 1 to 10,000.
fn turns_limit(word: &[u8]) -> Option<Limit>
    ensures says { result ≡ turns_limit word.now }
    ensures within { IfSome result IsLimit }
{
    match read_within(1, 10_000, (), (), word) {
        Ok(turns) => Some(Limit::Turns(turns as u32)),
        Err(()) => None,
    }
}

// Returns the seconds that digits say, 1 to 86,400.
fn seconds_limit(digits: &[u8]) -> Option<Limit>
    ensures says { result ≡ seconds_limit digits.now }
    ensures within { IfSome result IsLimit }
{
    match read_within(1, 86_400, (), (), digits) {
        Ok(seconds) => Some(Limit::Seconds(seconds as u32)),
        Err(()) => None,
    }
}

// Returns a word without the s at its end, where it has one.
fn before_s(word: &[u8]) -> Option<&[u8]>
    ensures { option_copied result ≡ before_s word.now }
{
    word.strip_suffix(b"s".as_slice())
}

// Returns the limit that a word says: turns, or seconds with an s behind them.
pub(crate) fn limit_of(word: &str) -> Option<Limit>
    ensures says { result ≡ limit_of word.now }
    ensures within { IfSome result IsLimit }
{
    match before_s(word.as_bytes()) {
        Some(digits) => seconds_limit(digits),
        None => turns_limit(word.as_bytes()),
    }
}

// Returns how many trees a word asks for, 1 to 1,000.
pub(crate) fn most_of(word: &str) -> Option<u32>
    ensures says { result ≡ most_of word.now }
    ensures within { IfSome result IsMost }
{
    match read_within(1, 1_000, (), (), word.as_bytes()) {
        Ok(most) => Some(most as u32),
        Err(()) => None,
    }
}

// Returns the number of a day that a word says.
pub(crate) fn number_of_make(word: &str) -> Option<u32>
    ensures { result ≡ number_of_make word.now }
{
    match read_within(0, 4_294_967_295, (), (), word.as_bytes()) {
        Ok(number) => Some(number as u32),
        Err(()) => None,
    }
}

// Returns which bounds a word names.
pub(crate) fn kind_of(word: &str) -> Option<Kind>
    ensures { result ≡ kind_of word.now }
{
    if word == "floors" {
        return Some(Kind::Floors);
    }
    if word == "ceilings" {
        return Some(Kind::Ceilings);
    }
    None
}

// Returns what `relax-demand` asks for, where a word names bounds.
fn relax_form<'a>(rules: &'a str, demand: &'a str, kind: Option<Kind>) -> Form<'a>
    ensures asked { asked result ≡ relax_form rules.now demand.now kind }
    ensures numbers { HasNumbers result }
{
    match kind {
        Some(kind) => Form::RelaxDemand {
            rules,
            demand,
            kind,
        },
        None => Form::None,
    }
}

// Returns what two words ask for.
fn shortest_form<'a>(command: &str, rules: &'a str) -> Form<'a>
    ensures asked { asked result ≡ shortest_form command.now rules.now }
    ensures numbers { HasNumbers result }
{
    if command == "relax-rules" {
        return Form::RelaxRules { rules };
    }
    Form::None
}

// Returns what `rank` asks for, where a word says how many trees.
fn rank_form<'a>(rules: &'a str, most: Option<u32>, start: Option<&'a str>) -> Form<'a>
    requires { IfSome most IsMost }
    ensures asked { asked result ≡ rank_form rules.now most (option_copied start.entry) }
    ensures numbers { HasNumbers result }
{
    match most {
        Some(most) => Form::Rank { rules, most, start },
        None => Form::None,
    }
}

// Returns what three words ask for, or four of which the last one is a name to begin at.
fn short_form<'a>(command: &str, rules: &'a str, word: &'a str, start: Option<&'a str>) -> Form<'a>
    ensures asked { asked result
        ≡ short_form command.now rules.now word.now (option_copied start.entry) }
    ensures numbers { HasNumbers result }
{
    if command == "explain" {
        return Form::Explain { rules, word, start };
    }
    if command == "rank" {
        return rank_form(rules, most_of(word), start);
    }
    if command == "next" {
        return Form::Next {
            rules,
            prefix: word,
            start,
        };
    }
    if command == "fits" {
        return Form::Fits {
            rules,
            pattern: word,
            start,
        };
    }
    Form::None
}

// Returns what `solve` asks for, where a word says a limit.
fn solve_form<'a>(
    rules: &'a str,
    demand: &'a str,
    proof: &'a str,
    limit: Option<Limit>,
    from: Option<&'a str>,
) -> Form<'a>
    requires { IfSome limit IsLimit }
    ensures asked { asked result ≡ solve_form rules.now demand.now proof.now limit
        (option_copied from.entry) }
    ensures numbers { HasNumbers result }
{
    match limit {
        Some(limit) => Form::Solve {
            rules,
            demand,
            proof,
            limit,
            from,
        },
        None => Form::None,
    }
}

// Returns what `curve` asks for, where a word says a limit.
fn curve_form<'a>(
    rules: &'a str,
    demand: &'a str,
    proof: &'a str,
    limit: Option<Limit>,
    group: Option<&'a str>,
) -> Form<'a>
    requires { IfSome limit IsLimit }
    ensures asked { asked result ≡ curve_form rules.now demand.now proof.now limit
        (option_copied group.entry) }
    ensures numbers { HasNumbers result }
{
    match limit {
        Some(limit) => Form::Curve {
            rules,
            demand,
            proof,
            limit,
            group,
        },
        None => Form::None,
    }
}

// Returns what five words ask for, or six of which the last one is a name.
fn longest_form<'a>(
    command: &str,
    rules: &'a str,
    demand: &'a str,
    proof: &'a str,
    limit: &str,
    name: Option<&'a str>,
) -> Form<'a>
    ensures asked { asked result ≡ longest_form command.now rules.now demand.now proof.now limit.now
        (option_copied name.entry) }
    ensures numbers { HasNumbers result }
{
    if command == "solve" {
        return solve_form(rules, demand, proof, limit_of(limit), name);
    }
    if command == "curve" {
        return curve_form(rules, demand, proof, limit_of(limit), name);
    }
    Form::None
}

// Returns what `make` asks for, where its words say a number and a limit.
fn make_form<'a>(number: Option<u32>, proof: &'a str, limit: Option<Limit>) -> Form<'a>
    requires { IfSome limit IsLimit }
    ensures asked { asked result ≡ make_form number proof.now limit }
    ensures numbers { HasNumbers result }
{
    match (number, limit) {
        (Some(number), Some(limit)) => Form::Make {
            number,
            proof,
            limit,
        },
        _ => Form::None,
    }
}

// Returns what four words ask for.
fn long_form<'a>(command: &str, first: &'a str, second: &'a str, third: &'a str) -> Form<'a>
    ensures asked { asked result ≡ long_form command.now first.now second.now third.now }
    ensures numbers { HasNumbers result }
{
    if command == "check" {
        return Form::Check {
            rules: first,
            demand: second,
            proof: third,
        };
    }
    if command == "value" {
        return Form::Value {
            rules: first,
            demand: second,
            roster: third,
        };
    }
    if command == "rest" {
        return Form::Rest {
            rules: first,
            demand: second,
            roster: third,
        };
    }
    if command == "reuse" {
        return Form::Reuse {
            rules: first,
            demand: second,
            proof: third,
        };
    }
    if command == "make" {
        return make_form(number_of_make(first), second, limit_of(third));
    }
    if command == "relax-demand" {
        return relax_form(first, second, kind_of(third));
    }
    short_form(command, first, second, Some(third))
}

/// No form has more words.
const MOST_WORDS: usize = 6;

/// Returns what the words ask for.
pub fn form_of(words: &[String]) -> Form<'_>
    ensures asked { asked result ≡ form_of (map string_bytes words.now) }
    ensures numbers { HasNumbers result }
{
    if words.len() > MOST_WORDS {
        return Form::None;
    }
    match words {
        [command, rules] => shortest_form(command.as_str(), rules.as_str()),
        [command, rules, word] => {
            short_form(command.as_str(), rules.as_str(), word.as_str(), None)
        }
        [command, first, second, third] => long_form(
            command.as_str(),
            first.as_str(),
            second.as_str(),
            third.as_str(),
        ),
        [command, rules, demand, proof, limit] => longest_form(
            command.as_str(),
            rules.as_str(),
            demand.as_str(),
            proof.as_str(),
            limit.as_str(),
            None,
        ),
        [command, rules, demand, proof, limit, name] => longest_form(
            command.as_str(),
            rules.as_str(),
            demand.as_str(),
            proof.as_str(),
            limit.as_str(),
            Some(name.as_str()),
        ),
        _ => Form::None,
    }
}
