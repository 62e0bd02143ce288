//! The laws on rules texts that are read and written.

ghost use Rattle.std.specs.Prelude.{◌≡◌, ◌⊎◌, ℕ, List, Result, Ok, Err};
ghost use Rattle.model_rosters.specs.declared.grammar.Grammar.{Grammar};
ghost use Rattle.model_rosters.specs.Sound.{IsSound, IsPlain};
ghost use Rattle.text_rules.specs.declared.fault.RulesFault.{RulesFault};
ghost use Rattle.text_rules.specs.declared.fault.RulesFault.TheVariants.{TooLong};
ghost use Rattle.text_rules.specs.Forms.{IsComplete, IsFirstRefused, IsRefusedWhole};
ghost use Rattle.text_rules.specs.RulesOf.{IsReading};
ghost use Rattle.text_rules.specs.Written.{rules_text};

/// States a law: the text that is written of a grammar is read as that grammar.
pub fn written_again()
    ensures { (g : Grammar) → IsSound g → IsPlain g → IsReading (rules_text g) (Ok g) }
{}

/// States a law: a text says one grammar, or has one first fault.
pub fn one_reading()
    ensures { (text : List ℕ) (r s : Result Grammar RulesFault) → IsReading text r → IsReading text s
        → r ≡ s }
{}

/// States a law: an accepted text consists of lines of the five forms, one of which states the
/// periods and one the start.
pub fn accepted_lines()
    ensures { (text : List ℕ) (g : Grammar) → IsReading text (Ok g) → IsComplete text }
{}

/// States a law: a refused text is too long, or has a line that cannot stand after those before
/// it, whose number the fault carries, or all its lines stand and the fault is one of the whole: no
/// `periods` line, no `start` line, a name with no rule, a cycle of one-symbol rules.
pub fn refused_line()
    ensures { (text : List ℕ) (e : RulesFault) → IsReading text (Err e)
        → (e ≡ TooLong) ⊎ (IsFirstRefused text e ⊎ IsRefusedWhole text e) }
{}
