//! The windows at the end of a rule line.

ghost use Rattle.std.specs.Prelude.{◌≡◌, IfOk, is_some};
ghost use Rattle.text_rules.specs.RuleLine.{bounds_at, written, with_window, window_at, windows_at, are_windows, no_windows};

use crate::fault::RulesFault;
use crate::field::number;
use crate::names::is_window_word;
use crate::window::Windows;
use model_rosters::Window;
use text_lines::Words;

// Reads a window of two numbers.
#[tactic(auto, unfolding(crate::specs::RuleLine::bounds_at))]
fn bounds(line: u32, low: &[u8], high: &[u8]) -> Result<Window, RulesFault>
    ensures { result ≡ bounds_at line low.now high.now }
{
    let lo = number(line, 1, 96, low)?;
    let hi = number(line, lo, 96, high)?;
    Ok(Window {
        lo: lo as u8,
        hi: hi as u8,
    })
}

// Whether such a window was written.
fn is_written(windows: &Windows, word: &[u8]) -> bool
    ensures { result ≡ is_some (written windows.now word.now) }
{
    if word == b"len".as_slice() {
        windows.span.is_some()
    } else if word == b"begin".as_slice() {
        windows.first.is_some()
    } else {
        windows.last.is_some()
    }
}

// Sets the window of this word.
fn set(windows: &mut Windows, word: &[u8], window: Window)
    ensures { windows.new ≡ with_window windows.old word.now window }
{
    if word == b"len".as_slice() {
        windows.span = Some(window);
    } else if word == b"begin".as_slice() {
        windows.first = Some(window);
    } else {
        windows.last = Some(window);
    }
}

// Reads a window, and sets the one of its word, which is written once at most.
#[tactic(auto, unfolding(crate::specs::RuleLine::window_at))]
fn window(
    line: u32,
    windows: Windows,
    word: &[u8],
    low: &[u8],
    high: &[u8],
) -> Result<Windows, RulesFault>
    ensures { result ≡ window_at line windows word.now low.now high.now }
{
    if is_written(&windows, word) {
        return Err(RulesFault::Twice { line });
    }
    let window = bounds(line, low, high)?;
    let mut windows = windows;
    set(&mut windows, word, window);
    Ok(windows)
}

/// Reads the windows at the end of a rule line.
///
/// # Errors
///
/// The first fault of the words, as `windows_at` says it: `UnknownLine` where a number is missing, `Twice`
/// where a window is written again, `BadNumber` or `OutOfRange`. Each carries the line.
pub fn read_windows(line: u32, words: &mut Words<'_>) -> Result<Windows, RulesFault>
    ensures { result ≡ windows_at line no_windows words.old }
{
    let mut windows = Windows {
        span: None,
        first: None,
        last: None,
    };
    while let Some(word) = words.next() {
        let Some(low) = words.next() else {
            return Err(RulesFault::UnknownLine { line });
        };
        let Some(high) = words.next() else {
            return Err(RulesFault::UnknownLine { line });
        };
        windows = window(line, windows, word, low, high)?;
    }
    Ok(windows)
}

/// Whether the words are groups of three, each with a word of the windows at its front.
pub fn are_windows(words: &mut Words<'_>) -> bool
    ensures { result ≡ are_windows words.old }
{
    while let Some(word) = words.next() {
        if !is_window_word(word) {
            return false;
        }
        if words.next().is_none() || words.next().is_none() {
            return false;
        }
    }
    true
}
