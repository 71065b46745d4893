// A world as the numbers of a buffer, and back.
#![tactic(auto)]

mod decoding;
mod encoding;

pub use decoding::{decode, is_set, seat_at, tunings_of};
pub use encoding::{
    HOOK, MARK, RECORD, RECORDS, SEAT, STATE, WORLD, encode, encode_records, flag, net_core,
    present_numbers, record_numbers, seat_place,
};
