//! The laws on pages of the same texts, and on texts over their limits.

ghost use Rattle.std.specs.Prelude.{ℕ, ◌≡◌, List, ◌∷◌};
ghost use Rattle.model_rosters.specs.declared.grammar.Grammar.{Grammar};
ghost use Rattle.model_rosters.specs.declared.instance.Group.{Group};
ghost use Rattle.model_rosters.specs.Extension.{extended};
ghost use Rattle.model_rosters.specs.declared.instance.Instance.{Instance};
ghost use Rattle.page_labels.specs.LabelsOf.{labels_of};
ghost use Rattle.command_shelf.specs.Shelf.{front_to};
ghost use Rattle.page_command.specs.OnePage.{
  HaveOneCalendar,
  HaveOneLabelledPage,
  HaveOnePage,
  HaveOnePageBeside,
};
ghost use Rattle.check_values.specs.group_rules.Plain.{plain_from};

/// States a law: the same texts have the same answer; two pages of them are the same but for the trees of the
/// derivations, of which each is one of the row's word at its price.
pub fn one_page()
    ensures page { HaveOnePage }
    ensures labelled { HaveOneLabelledPage }
    ensures beside { HaveOnePageBeside }
    ensures calendar { HaveOneCalendar }
{}

/// States a law: what derives the words of groups is the rules text's grammar, which the groups extend, from
/// another start.
pub fn groups_derive_by_the_rules()
    ensures { (g : Grammar) (x : Group) (gs : List Group) (start : ℕ)
        → plain_from (extended g (x ∷ gs)) (x ∷ gs) start ≡ record g { start = start } }
{}

/// States a law: a labels text and its first bytes, up to one above the limit, are read alike; a text over
/// the limit and its first bytes so are refused alike.
pub fn labels_by_front()
    ensures { (i : Instance) (text : List ℕ) → labels_of i (front_to 65536 text) ≡ labels_of i text }
{}
