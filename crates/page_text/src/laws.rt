//! The laws on the marks and the end of a page.

ghost use Rattle.std.specs.Prelude.{ℕ, ◌≡◌, List, codes as text, length, min};
ghost use Rattle.model_rosters.specs.declared.grammar.CodeDef.{CodeDef};
ghost use Rattle.page_parts.specs.Elements.{written};
ghost use Rattle.page_parts.specs.Escapes.{IsOneToOne, marks_of, recoded};
ghost use Rattle.page_parts.specs.declared.sheet.PeriodAxis.{PeriodAxis};
ghost use Rattle.page_text.specs.Alike.{EndsWith, IsAlike};
ghost use Rattle.page_text.specs.Inputs.{longest};
ghost use Rattle.page_text.specs.Pages.{body, page};
ghost use Rattle.page_text.specs.declared.content.Content.{Content};

/// States a law: the marks of a page, which are all that is not a byte of the texts, stay under any names and
/// derivations, under any other words that amounts are counted in, with as many decimals, and under other
/// bytes of the codes, in codes and words alike, where no two get one byte. On one sheet they stay whatever
/// the names; the page's sheet depends on how wide the widest name is, up to 25 columns, and how long the
/// words for amounts are, up to 60 bytes, and on nothing else of them.
pub fn marks_stay()
    ensures on_a_sheet { (f : ℕ → ℕ) → IsOneToOne f → (s : PeriodAxis) (cs : List CodeDef) (c d : Content)
        → IsAlike f c d → marks_of (body s (recoded f cs) d) ≡ marks_of (body s cs c) }
    ensures on_the_page { (f : ℕ → ℕ) → IsOneToOne f → (periods : ℕ) (cs : List CodeDef) (c d : Content)
        → IsAlike f c d → min (longest d.rows 0) 25 ≡ min (longest c.rows 0) 25
        → min (length d.money.words) 60 ≡ min (length c.money.words) 60
        → marks_of (page periods (recoded f cs) d) ≡ marks_of (page periods cs c) }
{}

/// States a law: the text of a page ends in `</html>` and a line feed.
pub fn page_ends()
    ensures { (periods : ℕ) (cs : List CodeDef) (c : Content)
        → EndsWith (text "</html>\n") (written (page periods cs c)) }
{}
