ghost use Rattle.std.specs.Prelude.{◌≡◌};
ghost use Rattle.scr_base.specs.Same.{same_reply};

use scr_base::Reply;

/// Whether two replies are one.
pub(crate) fn same_reply(one: &Reply, other: &Reply) -> bool
    ensures { result ≡ same_reply one.now other.now }
{
    match (one, other) {
        (Reply::Done, Reply::Done) => true,
        (Reply::Yes, Reply::Yes) => true,
        (Reply::No, Reply::No) => true,
        (Reply::Exit { reason: a }, Reply::Exit { reason: b }) => a == b,
        (Reply::Started { which: a }, Reply::Started { which: b }) => a == b,
        (Reply::Kept, Reply::Kept) => true,
        (Reply::NotKept, Reply::NotKept) => true,
        (Reply::NoneLeft, Reply::NoneLeft) => true,
        (Reply::Offer { which: a, name: n }, Reply::Offer { which: b, name: m }) => {
            a == b && n.bytes() == m.bytes()
        }
        (Reply::Failed, Reply::Failed) => true,
        (Reply::Routed { part: a }, Reply::Routed { part: b }) => a.list() == b.list(),
        (Reply::Bytes { bytes: a }, Reply::Bytes { bytes: b }) => a.list() == b.list(),
        (Reply::Refused { refusal: a }, Reply::Refused { refusal: b }) => a == b,
        _ => false,
    }
}
