//! What a stop may leave of a record's gates: laws on the calls of a device, for whoever keeps track of a record from call to call.
#![tactic(auto)]

mod laws;

pub use laws::{
    a_body_opens_no_gate, a_gate_at_rest_stays, a_gate_write_leaves_the_rest,
    a_removal_opens_no_gate, a_sync_leaves_no_more,
};
