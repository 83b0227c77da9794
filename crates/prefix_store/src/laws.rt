//! What the names of flushed files tell.
ghost use Rattle.std.specs.Prelude.{◌≡◌, ◌<◌, ◌^◌, ℕ, List, IsTrue};
ghost use Rattle.scr_base.specs.Words.{is_name};
ghost use Rattle.prefix_store.specs.Names.{flushed_name, IsUnder, HasNoSlash};

/// A name stands under one folder alone, that of its dataset, and is of one rank and one file there; a name without a slash,
/// as those of records and of pairs' copies are, stands under none.
pub fn distinct_folders()
    ensures folders { (name other q : List ℕ) → IsTrue (is_name name) → IsTrue (is_name other) → IsUnder name q → IsUnder other q → name ≡ other }
    ensures under { (name : List ℕ) (rank : ℕ) (file : List ℕ) → IsUnder name (flushed_name name rank file) }
    ensures files { (name : List ℕ) (rank other : ℕ) (file its : List ℕ) → rank < 2 ^ 8 → other < 2 ^ 8 → flushed_name name other its ≡ flushed_name name rank file → (other ≡ rank) × (its ≡ file) }
    ensures records { (name q : List ℕ) → HasNoSlash q → IsUnder name q → ⊥ }
{}
