ghost use Rattle.std.specs.Prelude.{◌≡◌, ◌≢◌, ℕ, ◌<◌, ◌≤◌, length, vec_capacity, IfSome, IfNone};
ghost use Rattle.std.specs.List.{remove};
ghost use Rattle.commit_core.specs.LedgerIndex.{out_at, Ascend, IsFoundAt};

/// A number that is out, and the place of its piece.
#[derive(Clone, Copy, Debug)]
pub struct OutAt {
    pub number: u64,
    pub place: usize,
}

/// Takes a number out of the list, which is ascending, and tells its place. The list stays where it hasn't the number.
pub fn take_out(outs: &mut Vec<OutAt>, number: u64) -> Option<usize>
    requires { Ascend outs.old.items }
    ensures found { IfSome result (IsFoundAt outs.old.items outs.new.items number) }
    ensures none { IfNone result ((k : ℕ) → k < length outs.old.items → (out_at outs.old.items k).number ≢ number) }
    ensures unchanged { IfNone result (outs.new.items ≡ outs.old.items) }
    ensures room { vec_capacity outs.new ≡ vec_capacity outs.old }
{
    match outs.binary_search_by_key(&number, |out| out.number) {
        Ok(at) => Some(outs.remove(at).place),
        Err(_) => None,
    }
}
