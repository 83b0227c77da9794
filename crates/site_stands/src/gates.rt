//! Gates that are turned node by node.
ghost use Rattle.std.specs.Prelude.{◌≡◌, ◌≢◌, ◌⊎◌, ◌<◌, ◌+◌, ℕ, Bool, true, false, IsTrue, List, Option, Some, slice_get, codes};
ghost use Rattle.scr_base.specs.declared.shape.Shape.{Shape};
ghost use Rattle.node_device.specs.File.{File, MayLeave, IsAtRest};
ghost use Rattle.node_device.specs.DeviceState.{DeviceState};
ghost use Rattle.gated_record.specs.PairStages.{PairLeaves, IsOldOrWanted};
ghost use Rattle.gated_record.specs.declared.pair.PairValue.{PairValue};
ghost use Rattle.member_store.specs.Names.{record_name};
ghost use Rattle.ckpt_model.specs.declared.event.Event.TheVariants as event;
ghost use Rattle.ckpt_model.specs.declared.event.StopCause.TheVariants as cause;
ghost use Rattle.ckpt_model.specs.Dataset.{Dataset};
ghost use Rattle.ckpt_model.specs.Machine.{Machine, Setup, Kept, Mark};
ghost use Rattle.ckpt_model.specs.Moves.{may};
ghost use Rattle.ckpt_model.specs.Steps.{members_at};
ghost use Rattle.ckpt_model.specs.Stops.{may_stop, may_store};
ghost use Rattle.model_proper.specs.Next.{IsSealedNext};
ghost use Rattle.site_stands.specs.Cells.{physical_nodes};
ghost use Rattle.site_stands.specs.Gate.{Gate, GateIs, synced, MemberIs, GatesHold, TurnsOneGate};
ghost use Rattle.site_stands.specs.Members.{KeptStands, NoneSealed};
ghost use Rattle.site_stands.specs.Moves.{MovesDataset};
ghost use Rattle.site_stands.specs.Prefix.{IsRunOf};
ghost use Rattle.site_stands.specs.Site.{SiteStands, IsSafeToStop};
ghost use Rattle.site_stands.specs.View.{run_in};

/// A sync makes a gate that is turning open after every stop, and one that is closing shut.
pub fn a_sync_ends_the_turn_of_a_gate()
    ensures { (f g : File) (k : ℕ) (t : Gate) → ((o : Option (List ℕ)) → MayLeave g o → MayLeave f o) → g.now ≡ f.now → IsAtRest g → GateIs f k t → GateIs g k (synced t) }
{}

/// While all gates `sealed` of a dataset are shut, no record of it is left sealed. Once all gates `whole` are open it stands on its places, in doubt
/// or with all gates `sealed` open; and a dataset that stands so, and not in doubt, has all its gates open.
pub fn gates_tell_how_a_dataset_stands()
    ensures unsealed { (shape : Shape) (states : ℕ → DeviceState) (places : List ℕ) (d : Dataset) (whole sealed : ℕ → Gate) → GatesHold shape states places d whole sealed → ((node : ℕ) → sealed node ≡ Gate.Shut) → NoneSealed shape states d.which }
    ensures stands { (shape : Shape) (states : ℕ → DeviceState) (places : List ℕ) (d : Dataset) (whole sealed : ℕ → Gate) → GatesHold shape states places d whole sealed → (mark : Mark) (doubt : Bool) → ((node : ℕ) → whole node ≡ Gate.Open)
        → (doubt ≡ false → (node : ℕ) → sealed node ≡ Gate.Open) → KeptStands shape states (record { dataset = d; mark = mark; members = members_at places; doubt = doubt }) }
    ensures open { (shape : Shape) (states : ℕ → DeviceState) (places : List ℕ) (k : Kept) → k.members ≡ members_at places → k.doubt ≡ false → KeptStands shape states k → (node p : ℕ) → slice_get places node ≡ Some p
        → (p < physical_nodes shape) × MemberIs shape (states p) k.dataset node Gate.Open Gate.Open }
{}

/// A write of one gate `sealed`, done or refused, turns that gate alone, where the members on the other nodes are kept.
pub fn a_seal_turns_one_gate()
    ensures { (shape : Shape) (old new : ℕ → DeviceState) (places : List ℕ) (d : Dataset) (node place : ℕ) → slice_get places node ≡ Some place → TurnsOneGate old new d node place 1 0
        → (sealed upon : ℕ → Gate) → ((i : ℕ) → i ≢ node → upon i ≡ sealed i) → GateIs ((new place).file (record_name d.which node)) 1 (upon node)
        → ((i p : ℕ) → i ≢ node → slice_get places i ≡ Some p → MemberIs shape (old p) d i Gate.Open (sealed i) → MemberIs shape (new p) d i Gate.Open (sealed i))
        → GatesHold shape old places d (λ i. Gate.Open) sealed → GatesHold shape new places d (λ i. Gate.Open) upon }
{}

/// Once all members of a dataset are whole, a stop by the device that refuses the first gate `sealed` is safe.
pub fn a_refused_first_seal_is_safe()
    ensures { (s : Setup) (old new : ℕ → DeviceState) (m : Machine) (d : Dataset) (before upon : ℕ → Gate) (place count : ℕ) → IsTrue (may_stop m (cause.Device place count)) → IsTrue (may s m (event.Sealing d.which)) → IsSealedNext s m d
        → SiteStands s old m → GatesHold s.shape old m.places d (λ i. Gate.Open) before → MovesDataset s.shape d.which old new → GatesHold s.shape new m.places d (λ i. Gate.Open) upon → IsSafeToStop s new (cause.Device place count) m }
{}

/// While the next run's number is on its way, each stop leaves the number of this run or the next.
pub fn a_number_on_its_way_is_of_this_run_or_the_next()
    ensures { (m : Machine) (disk : DeviceState) (old : Option PairValue) (want : PairValue) → run_in old ≡ m.run → want.version ≡ m.run + 1 → IsTrue (may_store m true) → PairLeaves (codes "run") disk (IsOldOrWanted old want)
        → PairLeaves (codes "run") disk (λ v. IsRunOf m (run_in v)) }
{}
