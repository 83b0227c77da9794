//! What the devices of a site stand for: its real files, in the words of the checkpoint machine.
#![tactic(auto)]

mod between_runs;
mod events;
mod frame;
mod gates;
mod look;
mod moves;
mod records;
mod stops;

pub use between_runs::{
    a_lost_node_leaves_what_stands, devices_hold_what_they_stand_for, empty_devices_stand,
};
pub use events::{
    a_mended_dataset_stands, a_node_that_is_emptied_is_unsure, a_whole_dataset_may_come,
    an_event_of_the_index_keeps_the_rest, an_event_of_the_nodes_keeps_the_rest,
    an_unsealed_dataset_may_leave, calls_and_replies_keep_what_stands, doubt_keeps_what_stands,
};
pub use frame::{
    a_bare_node_is_off, a_move_of_one_dataset_keeps_the_rest, a_move_of_one_entry_keeps_the_rest,
    a_sync_leaves_no_more_of_any_file, a_write_into_an_open_dataset_keeps_what_stands,
    reads_and_syncs_keep_what_stands,
};
pub use gates::{
    a_number_on_its_way_is_of_this_run_or_the_next, a_refused_first_seal_is_safe,
    a_seal_turns_one_gate, a_sync_ends_the_turn_of_a_gate, gates_tell_how_a_dataset_stands,
};
pub use look::what_is_listed_may_be_found;
pub use moves::{
    a_change_of_one_file_moves_its_dataset, a_gate_write_leaves_the_rest_of_its_record,
    a_moved_dataset_alone_is_left_to_show, an_event_of_the_cache_keeps_the_prefix,
};
pub use records::{a_file_of_a_member_reads, one_dataset_has_one_record};
pub use stops::{a_safe_stop_leaves_what_stands, a_stop_is_safe};
