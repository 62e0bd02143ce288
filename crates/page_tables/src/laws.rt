//! The law that the marks of a page's tables stay.

ghost use Rattle.std.specs.Prelude.{◌≡◌};
ghost use Rattle.page_parts.specs.Amounts.{AreSaidAlike};
ghost use Rattle.page_parts.specs.Escapes.{marks_of};
ghost use Rattle.page_parts.specs.declared.money.Money.{Money};
ghost use Rattle.page_tables.specs.Alike.{IsAlikeTables};
ghost use Rattle.page_tables.specs.Tables.{page_tables};
ghost use Rattle.page_tables.specs.declared.tables.Tables.{Tables};

/// States a law: the marks of the tables, which are all that is not a byte of the texts, stay under any
/// names, labels, times and words, and under any other words that amounts are counted in, with as many
/// decimals.
pub fn marks_stay()
    ensures { (m n : Money) (t u : Tables) → AreSaidAlike m n → IsAlikeTables t u
        → marks_of (page_tables n u) ≡ marks_of (page_tables m t) }
{}
