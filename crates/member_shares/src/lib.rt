//! What each member of a set keeps for the others, as definitions, and the law that there is exactly one such share.
#![tactic(auto)]

ghost use Rattle.std.specs.Prelude.{◌≡◌, ℕ, List, length};
ghost use Rattle.scr_base.specs.declared.shape.Scheme.{Scheme};
ghost use Rattle.member_shares.specs.Shares.{IsSet, AreBytes, AreParityShares};

/// For segments of any length there is exactly one list of shares with which each column is one of the code, for the
/// crates above. It does nothing.
pub fn one_list_of_shares()
    ensures some { (scheme : Scheme) (c : ℕ) (streams : List (List ℕ)) → IsSet scheme (length streams) → AreBytes streams → (shares : List (List ℕ)) × AreParityShares scheme c streams shares }
    ensures one { (scheme : Scheme) (c : ℕ) (streams xs ys : List (List ℕ)) → IsSet scheme (length streams) → AreParityShares scheme c streams xs → AreParityShares scheme c streams ys → xs ≡ ys }
{}
