//! Which threads can go on, of all that stand.
#![tactic(auto)]

mod laws;
mod sets;

pub use laws::{
    a_change_may_keep_the_sets, a_noted_thread_has_its_place, a_pushed_thread_comes_last,
    no_number_is_no_thread, no_threads_have_empty_sets, room_keeps_the_sets, sets_are_as_long,
    sets_tell_of_each_thread, who_is_in_a_set_stands,
};
pub use sets::{ThreadSets, can_be_completed};
