//! A dataset is made whole: claims on its shares and the deposits that answer them, then records, syncs and gates.
#![tactic(auto)]

mod answers;
mod change;
mod claim;
mod commit;
mod commit_laws;
mod deposit;
mod inputs;
mod laws;
mod ledger;
mod listing;
mod longest;
mod outs;
mod piece;
mod set;
mod stage;
mod standing;
mod stream;
mod stripe;
mod taken;
mod working;

pub use answers::Claimed;
pub use change::NextChange;
pub use claim::Claim;
pub use commit::Commit;
pub use commit_laws::{
    a_commit_without_shares_begins, a_deposit_is_a_part_of_its_keepers_share, a_share_begins,
    pieces_that_are_written_make_the_shares,
};
pub use deposit::Deposit;
pub use laws::{deposits_are_shares, deposits_make_shares, pieces_are_kept, pieces_fit_claims};
pub use ledger::Ledger;
pub use listing::pieces_of;
pub use piece::Piece;
pub use set::CommitSet;
pub use stage::CommitStage;
pub use taken::Taken;
pub use working::work;
