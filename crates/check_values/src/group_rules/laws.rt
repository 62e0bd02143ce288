//! The laws on prices by the rules and by groups.

ghost use Rattle.check_values.specs.group_rules.Laws.{PlainOfExtended, SamePrices};

/// States a law: without what groups add, a grammar that they extend is that of the rules, from another
/// start.
pub fn plain_of_extended()
    ensures { PlainOfExtended }
{}

/// States a law: a word has the same prices as one of a name of the rules, whatever groups extend their
/// grammar.
pub fn same_prices()
    ensures { SamePrices }
{}
