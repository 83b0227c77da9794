ghost use Rattle.std.specs.Prelude.{◌≡◌, ◌<◌, ◌≤◌, ◌-◌};
ghost use Rattle.std.specs.Int.{div_ceil};
ghost use Rattle.member_shares.specs.Layout.{holds_parity, parity_place, data_place};
ghost use Rattle.member_shares.specs.Shares.{parity_count, IsSet};

use scr_base::Scheme;

/// How the segments of a set's members lie in stripes. There is a stripe for each member.
#[derive(Clone, Copy, Debug)]
pub struct Stripes {
    pub members: u8,
    /// How many segments of a stripe are parity.
    pub parity: u8,
    /// How many bytes a segment has.
    pub len: usize,
    pub ghost few: { members ≤ 16 },
    pub ghost data: { parity < members },
}

impl Stripes {
    /// The stripes of that many members, whose longest stream has that many bytes.
    pub fn of(scheme: Scheme, members: u8, longest: usize) -> Stripes
        requires { IsSet scheme members }
        ensures members { result.members ≡ members }
        ensures parity { result.parity ≡ parity_count scheme }
        ensures len { result.len ≡ div_ceil longest (members - parity_count scheme) }
    {
        let parity = parity_of(scheme);
        Stripes {
            members,
            parity,
            len: longest.div_ceil((members - parity) as usize),
        }
    }

    /// Whether a member has parity in a stripe.
    pub fn has_parity(self, stripe: u8, member: u8) -> bool
        requires stripe { stripe < self.members }
        requires member { member < self.members }
        ensures { result ≡ holds_parity self.members self.parity stripe member }
    {
        let ahead = if stripe <= member {
            member - stripe
        } else {
            member + self.members - stripe
        };
        ahead < self.parity
    }

    /// Where a member's parity segment of a stripe stands among its parity segments.
    pub fn parity_place(self, member: u8, stripe: u8) -> u8
        requires stripe { stripe < self.members }
        requires member { member < self.members }
        ensures { result ≡ parity_place self.members self.parity member stripe }
    {
        let last = member + 1;
        let around = (self.members + last).saturating_sub(self.parity);
        stripe
            .min(last)
            .saturating_sub(last.saturating_sub(self.parity))
            + stripe.saturating_sub(around)
    }

    /// Where a member's data segment of a stripe stands among its data segments.
    pub fn data_place(self, member: u8, stripe: u8) -> u8
        requires stripe { stripe < self.members }
        requires member { member < self.members }
        ensures { result ≡ data_place self.members self.parity member stripe }
    {
        stripe - self.parity_place(member, stripe)
    }
}

/// How many segments of a stripe are parity.
fn parity_of(scheme: Scheme) -> u8
    ensures { result ≡ parity_count scheme }
{
    match scheme {
        Scheme::Single | Scheme::Partner => 0,
        Scheme::Xor => 1,
        Scheme::Rs { shares } => shares,
    }
}
