// The calls on a world, a sender and a screen that are kept as the numbers of lent buffers, on packed records, the areas of a map, trials and ways to a place, and the aim angle. A call that may be refused answers the refusal's number, or 0.
// The crate `ponguriena_c` exports each function to C under its name.
// What takes a world names a role first: 13 comes before every other refusal.
#![tactic(auto)]

mod aim;
mod answers;
mod area;
mod calls;
mod layout;
mod packed;
mod readers;
mod searching;
mod sending;
mod trials;

pub use aim::ponguriena_aim;
pub use area::{ponguriena_area_build, ponguriena_area_change, ponguriena_area_count};
pub use calls::{
    ponguriena_fresh, ponguriena_input, ponguriena_join, ponguriena_leave, ponguriena_step,
    ponguriena_tune,
};
pub use layout::ponguriena_layout;
pub use packed::{ponguriena_pack, ponguriena_unpack};
pub use readers::{
    ponguriena_floor_mark, ponguriena_player_input, ponguriena_record, ponguriena_tuning,
};
pub use searching::ponguriena_search;
pub use sending::{
    ponguriena_receive, ponguriena_screen_fresh, ponguriena_send_leave, ponguriena_send_step,
    ponguriena_send_tune, ponguriena_sender_fresh, ponguriena_shown,
};
pub use trials::ponguriena_trial;
