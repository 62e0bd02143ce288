//! A text and its front are read alike.

ghost use Rattle.std.specs.Prelude.{◌≡◌, ◌↔◌, ℕ, List, Result};
ghost use Rattle.model_rosters.specs.declared.grammar.Grammar.{Grammar};
ghost use Rattle.model_rosters.specs.declared.instance.Instance.{Instance};
ghost use Rattle.text_rules.specs.RulesOf.{IsReading};
ghost use Rattle.text_rules.specs.declared.fault.RulesFault.{RulesFault};
ghost use Rattle.text_demand.specs.InstanceOf.{instance_of};
ghost use Rattle.text_proof_pieces.specs.CertOf.{proof_of};
ghost use Rattle.command_shelf.specs.Shelf.{front_to};

/// States a law: a rules text and its first bytes, up to one above the limit, are read alike; a text over the
/// limit and its first bytes so are refused alike.
pub fn rules_by_front()
    ensures { (text : List ℕ) (r : Result Grammar RulesFault)
        → IsReading (front_to 1048576 text) r ↔ IsReading text r }
{}

/// States a law: a demand text and its first bytes, up to one above the limit, are read alike; a text over
/// the limit and its first bytes so are refused alike.
pub fn demand_by_front()
    ensures { (g : Grammar) (text : List ℕ) → instance_of g (front_to 1048576 text) ≡ instance_of g text }
{}

/// States a law: a proof text and its first bytes, up to one above the limit, are read alike; a text over the
/// limit and its first bytes so are refused alike.
pub fn proof_by_front()
    ensures { (i : Instance) (text : List ℕ) → proof_of i (front_to 1073741824 text) ≡ proof_of i text }
{}
