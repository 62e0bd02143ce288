//! The laws on stretches and runs.

ghost use Rattle.std.specs.Prelude.{ℕ, ◌≡◌, List, All, Some, true};
ghost use Rattle.std.specs.List.{flat_map, list_all};
ghost use Rattle.model_shift_figures.specs.RunLaws.{lack_periods, run_periods};
ghost use Rattle.model_shift_figures.specs.Runs.{runs_of};
ghost use Rattle.model_shift_figures.specs.StretchLaws.{is_on, pasted, stretch_letters};
ghost use Rattle.model_shift_figures.specs.Stretches.{stretches_of};
ghost use Rattle.model_shift_figures.specs.declared.run.Lack.{Lack};

/// States a law: the runs give the periods back that have a number, each once and in their order, with their
/// code and their number.
pub fn runs_give_periods_back()
    ensures { (xs : List Lack) → flat_map run_periods (runs_of xs) ≡ flat_map lack_periods xs }
{}

/// States a law: the stretches of a word give it back, with time off before, between and behind them.
pub fn stretches_give_word_back()
    ensures { (off : ℕ) (word : List ℕ) → pasted word off 0 (stretches_of (Some off) word) ≡ word }
{}

/// States a law: no stretch of a word has a period of time off.
pub fn stretches_have_no_time_off()
    ensures { (off : ℕ) (word : List ℕ)
        → All (λ t. list_all (is_on off) (stretch_letters word t) ≡ true) (stretches_of (Some off) word) }
{}
