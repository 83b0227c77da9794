ghost use Rattle.std.specs.Prelude.{◌≡◌};
ghost use Rattle.member_shares.specs.Shares.{longest};

/// The greatest of some lengths; 0 where there is none.
pub fn longest_of(lengths: &[u32]) -> u32
    ensures { result ≡ longest lengths.now }
{
    let mut most = 0;
    for i in 0..lengths.len() {
        most = most.max(lengths[i]);
    }
    most
}
