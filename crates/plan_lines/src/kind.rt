//! What a line says, by its first word.

ghost use Rattle.std.specs.Prelude.{◌≡◌};
ghost use Rattle.plan_lines.specs.Kinds.{is_free, kind_of, later_kind, other_kind};

use plan_faults::Kind;

// Returns the kind of a line that begins with a word, of the last ones.
#[tactic(auto, unfolding(crate::specs::Kinds::later_kind))]
fn later_kind(word: &[u8]) -> Option<Kind>
    ensures { result ≡ later_kind word.now }
{
    if word == b"starts".as_slice() {
        Some(Kind::Starts)
    } else if word == b"duty".as_slice() {
        Some(Kind::Duty)
    } else if word == b"staff".as_slice() {
        Some(Kind::Staff)
    } else if word == b"need".as_slice() {
        Some(Kind::Need)
    } else {
        None
    }
}

// Returns the kind of a line that begins with a word, of those behind the first.
#[tactic(auto, unfolding(crate::specs::Kinds::other_kind))]
fn other_kind(word: &[u8]) -> Option<Kind>
    ensures { result ≡ other_kind word.now }
{
    if word == b"pause".as_slice() {
        Some(Kind::Pause)
    } else if word == b"extra".as_slice() {
        Some(Kind::Extra)
    } else if word == b"change".as_slice() {
        Some(Kind::Change)
    } else if word == b"stretch".as_slice() {
        Some(Kind::Stretch)
    } else {
        later_kind(word)
    }
}

/// Returns the kind of a line that begins with a word.
#[tactic(auto, unfolding(crate::specs::Kinds::kind_of))]
pub(crate) fn kind_of(word: &[u8]) -> Option<Kind>
    ensures { result ≡ kind_of word.now }
{
    if word == b"title".as_slice() {
        Some(Kind::Title)
    } else if word == b"day".as_slice() {
        Some(Kind::Day)
    } else if word == b"money".as_slice() {
        Some(Kind::Money)
    } else if word == b"work".as_slice() {
        Some(Kind::Work)
    } else {
        other_kind(word)
    }
}

/// Whether a line of a kind may hold other signs than printable ASCII.
#[tactic(auto, unfolding(crate::specs::Kinds::is_free))]
pub(crate) fn is_free(kind: Option<Kind>) -> bool
    ensures { result ≡ is_free kind }
{
    match kind {
        Some(Kind::Title) => true,
        Some(Kind::Money) => true,
        Some(Kind::Work) => true,
        Some(Kind::Pause) => true,
        Some(Kind::Staff) => true,
        Some(Kind::Day) => false,
        Some(Kind::Extra) => false,
        Some(Kind::Change) => false,
        Some(Kind::Stretch) => false,
        Some(Kind::Starts) => false,
        Some(Kind::Duty) => false,
        Some(Kind::Need) => false,
        None => false,
    }
}
