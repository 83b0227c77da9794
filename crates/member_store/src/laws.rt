//! What the names of members' files tell.
ghost use Rattle.std.specs.Prelude.{◌≡◌, ◌≢◌, ℕ, List};
ghost use Rattle.member_store.specs.Names.{record_name, part_name, IsPart, IsPlace, IsNameOf};
ghost use Rattle.member_store.specs.declared.part.Part.{Part};
ghost use Rattle.scr_base.specs.declared.shape.DataId.{DataId};

/// A name is of one member alone, and of one of its files or shares, or its record.
pub fn distinct_names()
    ensures members { (which other : DataId) (node place : ℕ) (name : List ℕ) → IsPlace which node → IsPlace other place → IsNameOf which node name → IsNameOf other place name → (which ≡ other) × (node ≡ place) }
    ensures parts { (which : DataId) (node : ℕ) (part other : Part) → IsPart part → IsPart other → part_name which node part ≡ part_name which node other → part ≡ other }
    ensures record { (which : DataId) (node : ℕ) (part : Part) → part_name which node part ≢ record_name which node }
{}
