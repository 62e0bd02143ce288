//! The laws on demand texts that are read and written.

ghost use Rattle.std.specs.Prelude.{◌≡◌, ◌≤◌, ◌⊎◌, ◌==◌, ◌∷◌, ◌++◌, ℕ, List, Ok, Err, length, not, true};
ghost use Rattle.std.specs.List.{list_all};
ghost use Rattle.model_rosters.specs.declared.grammar.Grammar.{Grammar};
ghost use Rattle.model_rosters.specs.declared.instance.Group.{Group};
ghost use Rattle.model_rosters.specs.declared.instance.Instance.{Instance};
ghost use Rattle.model_rosters.specs.Demands.{Demand};
ghost use Rattle.model_rosters.specs.Extension.{extended};
ghost use Rattle.model_rosters.specs.Sound.{IsSound, IsPlain};
ghost use Rattle.model_rosters.specs.SoundInstance.{AreGroups, IsSoundInstance};
ghost use Rattle.text_demand_lines.specs.declared.fault.DemandFault.{DemandFault};
ghost use Rattle.text_demand_lines.specs.declared.fault.DemandFault.TheVariants.{NoHeads, TooLong};
ghost use Rattle.text_demand.specs.Forms.{IsComplete, IsFirstRefused, AllStand};
ghost use Rattle.text_demand.specs.InstanceOf.{day_grammar, instance_of};
ghost use Rattle.text_demand.specs.Written.{AreDemandsOf, demand_text};

/// States a law: the extension of the grammar of a rules text by groups of its names is sound.
pub fn extension_is_sound()
    ensures { (g : Grammar) (groups : List Group) → IsSound g → IsPlain g
        → AreGroups (length g.names) groups → 1 ≤ length groups → IsSound (extended g groups) }
{}

/// States a law: the text that is written of a sound instance is read as that instance, for the
/// grammar of its rules, which with groups is the one that its own grammar extends.
pub fn written_again()
    ensures { (g : Grammar) (i : Instance) (ds : List Demand) → IsSound g → IsPlain g
        → i.grammar ≡ day_grammar g i.groups → IsSoundInstance i → AreDemandsOf i ds
        → instance_of g (demand_text i ds) ≡ Ok i }
{}

/// States a law: so is the text behind a line that holds a comment alone, of at most 1,000 bytes.
pub fn written_again_behind_comment()
    ensures { (g : Grammar) (i : Instance) (ds : List Demand) (comment : List ℕ) → IsSound g → IsPlain g
        → i.grammar ≡ day_grammar g i.groups → IsSoundInstance i → AreDemandsOf i ds
        → length comment ≤ 1000 → list_all (λ b. not (b == 10)) comment ≡ true
        → instance_of g (35 ∷ comment ++ 10 ∷ demand_text i ds) ≡ Ok i }
{}

/// States a law: an accepted text consists of lines of the five forms, of which one is a heads line,
/// or else one to eight are group lines.
pub fn accepted_lines()
    ensures { (g : Grammar) (text : List ℕ) (i : Instance) → instance_of g text ≡ Ok i → IsComplete g text }
{}

/// States a law: a refused text is too long, or has a line that cannot stand after those before it,
/// whose number the fault carries, or all its lines stand and none says how many employees work.
pub fn refused_line()
    ensures { (g : Grammar) (text : List ℕ) (e : DemandFault) → instance_of g text ≡ Err e
        → (e ≡ TooLong) ⊎ (IsFirstRefused g text e ⊎ (AllStand g text × (e ≡ NoHeads))) }
{}
