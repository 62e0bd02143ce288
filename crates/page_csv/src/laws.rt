//! The law that pieces give a word back.

ghost use Rattle.std.specs.Prelude.{ℕ, ◌≡◌, List};
ghost use Rattle.std.specs.List.{flat_map};
ghost use Rattle.page_csv.specs.PieceLaws.{piece_letters};
ghost use Rattle.page_csv.specs.Pieces.{pieces_of};

/// States a law: the stretches give the word back.
pub fn pieces_give_word_back()
    ensures { (word : List ℕ) → flat_map piece_letters (pieces_of word) ≡ word }
{}
