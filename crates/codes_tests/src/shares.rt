//! The law of shares.

use member_shares::one_list_of_shares;

#[test]
fn the_law_is_there() {
    one_list_of_shares();
}
