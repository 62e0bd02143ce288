//! A sound grammar, written.

ghost use Rattle.std.specs.Prelude.{◌≡◌, ◌<◌, ◌++◌, [], ◌∷◌, ◌==◌, ◌&&◌, All, codes as text, length, map, IfOk, OnOk, slice_index_or};
ghost use Rattle.std.specs.Fmt.{decimal};
ghost use Rattle.text_lines.specs.Written.{written, tail};
ghost use Rattle.model_rosters.specs.Sound.{Exists, IsRule, IsSound, IsPlain};
ghost use Rattle.text_lines.specs.Names.{name_of, code_of};
ghost use Rattle.text_rules.specs.Written.{symbol_word, window_words, periods_line, code_line, start_line, rule_line, rules_text};

use model_rosters::{CodeDef, Grammar, List, Memory, Rule, Sym, Window};
use std::alloc::Global;
use text_lines::{field, put, word};

// Appends a name.
fn name(out: &mut List<u8>, names: &[List<u8>], number: u8) -> Result<(), Memory>
    requires { number < length names.now }
    ensures { OnOk result (out.new ≡ out.old ++ tail (name_of names.now number ∷ [])) }
{
    word(out, names[number as usize].as_slice())
}

// Appends a symbol, a code between quotes.
fn symbol(
    out: &mut List<u8>,
    codes: &[CodeDef],
    names: &[List<u8>],
    symbol: Sym,
) -> Result<(), Memory>
    requires { Exists (length codes.now) (length names.now) symbol }
    ensures { OnOk result (out.new ≡ out.old ++ tail (symbol_word codes.now names.now symbol ∷ [])) }
{
    match symbol {
        Sym::Code(code) => {
            let byte = codes[code as usize].byte;
            word(out, &[b'\'', byte, b'\''])
        }
        Sym::Name(number) => name(out, names, number),
    }
}

// Appends a window behind its word, if it is not that of all numbers.
fn window(out: &mut List<u8>, name: &[u8], window: Window) -> Result<(), Memory>
    ensures { OnOk result (out.new ≡ out.old ++ tail (window_words name.now window)) }
{
    if window.lo == 1 && window.hi == 96 {
        return Ok(());
    }
    word(out, name)?;
    field(out, window.lo as u64)?;
    field(out, window.hi as u64)
}

// Appends the symbols of a right side.
fn symbols(
    out: &mut List<u8>,
    codes: &[CodeDef],
    names: &[List<u8>],
    right: &[Sym],
) -> Result<(), Memory>
    requires { All (Exists (length codes.now) (length names.now)) right.now }
    ensures { OnOk result (out.new ≡ out.old ++ tail (map (symbol_word codes.now names.now) right.now)) }
{
    for item in right {
        symbol(out, codes, names, *item)?;
    }
    Ok(())
}

// Appends the line of the periods.
fn periods_line(out: &mut List<u8>, periods: u8) -> Result<(), Memory>
    ensures { OnOk result (out.new ≡ out.old ++ written (periods_line periods ∷ [])) }
{
    put(out, b"periods")?;
    field(out, periods as u64)?;
    out.push(b'\n')
}

// Appends the line of a code.
fn code_line(out: &mut List<u8>, code: CodeDef) -> Result<(), Memory>
    ensures { OnOk result (out.new ≡ out.old ++ written (code_line code ∷ [])) }
{
    if code.work {
        put(out, b"work")?;
        word(out, &[code.byte])?;
        out.push(b'\n')
    } else {
        put(out, b"idle")?;
        word(out, &[code.byte])?;
        out.push(b'\n')
    }
}

// Appends a line for each code.
fn code_lines(out: &mut List<u8>, codes: &[CodeDef]) -> Result<(), Memory>
    ensures { OnOk result (out.new ≡ out.old ++ written (map code_line codes.now)) }
{
    for code in codes {
        code_line(out, *code)?;
    }
    Ok(())
}

// Appends the line of the start.
fn start_line(out: &mut List<u8>, names: &[List<u8>], start: u8) -> Result<(), Memory>
    requires { start < length names.now }
    ensures { OnOk result (out.new ≡ out.old ++ written (start_line (name_of names.now start) ∷ [])) }
{
    put(out, b"start")?;
    name(out, names, start)?;
    out.push(b'\n')
}

/// Appends the line of a rule, as it stands in the text that `write_rules` writes.
///
/// # Errors
///
/// `Memory` where memory runs out; a part of the line may stand at the end of `out` then.
pub fn append_rule(
    out: &mut List<u8>,
    codes: &[CodeDef],
    names: &[List<u8>],
    rule: &Rule,
) -> Result<(), Memory>
    requires { IsRule (length codes.now) (length names.now) rule.now }
    ensures { OnOk result (out.new ≡ out.old ++ written (rule_line codes.now names.now rule.now ∷ [])) }
{
    put(out, b"rule")?;
    name(out, names, rule.left)?;
    field(out, rule.cost as u64)?;
    word(out, b"=")?;
    symbols(out, codes, names, rule.right.as_slice())?;
    window(out, b"len", rule.span)?;
    window(out, b"begin", rule.first)?;
    window(out, b"end", rule.last)?;
    out.push(b'\n')
}

// Appends a line for each rule.
fn rule_lines(
    out: &mut List<u8>,
    codes: &[CodeDef],
    names: &[List<u8>],
    rules: &[Rule],
) -> Result<(), Memory>
    requires { All (IsRule (length codes.now) (length names.now)) rules.now }
    ensures { OnOk result (out.new ≡ out.old ++ written (map (rule_line codes.now names.now) rules.now)) }
{
    for rule in rules {
        append_rule(out, codes, names, rule)?;
    }
    Ok(())
}

/// Writes the text of a sound grammar with at most 32 names and 64 rules: the periods, a line for each code,
/// the start, and the rules with those windows that are not 1 to 96, each in order.
///
/// # Errors
///
/// `Memory` where memory runs out; there is no text then.
pub fn write_rules(alloc: Global, grammar: &Grammar) -> Result<List<u8>, Memory>
    requires sound { IsSound grammar.now }
    requires plain { IsPlain grammar.now }
    ensures { IfOk result (λ text. text ≡ rules_text grammar.now) }
{
    let mut out = List::new(alloc);
    let codes = grammar.codes.as_slice();
    let names = grammar.names.as_slice();
    periods_line(&mut out, grammar.periods)?;
    code_lines(&mut out, codes)?;
    start_line(&mut out, names, grammar.start)?;
    rule_lines(&mut out, codes, names, grammar.rules.as_slice())?;
    Ok(out)
}
