// The hook of a character, with what its record says of it.
ghost use Rattle.std.specs.Prelude.{◌≡◌};
ghost use Rattle.character_hook.specs.Hook.{net_state, net_pos, net_dir, tick_of, net_hooked_player, attached_or_grabbed, hook_from_net};

use game_records::Tick;
use num_convert::{cast_signed, cast_unsigned};
use num_vec2::vec2;

// Which character: never a count of steps.
#[derive(Clone, Copy, PartialEq, Eq)]
pub struct CharacterId(pub u32);

pub const HOOK_RETRACTED: i32 = -1;

pub const HOOK_IDLE: i32 = 0;

pub const HOOK_RETRACTING0: i32 = 1;

pub const HOOK_RETRACTING1: i32 = 2;

pub const HOOK_RETRACTING2: i32 = 3;

pub const HOOK_FLYING: i32 = 4;

pub const HOOK_ATTACHED_GRABBED: i32 = 5;

#[derive(Clone, Copy)]
pub enum Hook {
    // As Idle, but fires no new hook before the button is released.
    Retracted,
    Idle,
    // position, direction
    Flying(vec2, vec2),
    // who is held, for how many ticks
    Grabbed(CharacterId, u32),
    Attached(vec2),
    Retracting0(vec2),
    Retracting1(vec2),
    Retracting2(vec2),
}

impl Hook {
    pub fn net_state(self) -> i32
        ensures { result ≡ net_state self }
    {
        match self {
            Hook::Retracted => HOOK_RETRACTED,
            Hook::Idle => HOOK_IDLE,
            Hook::Flying(_, _) => HOOK_FLYING,
            Hook::Attached(_) => HOOK_ATTACHED_GRABBED,
            Hook::Grabbed(_, _) => HOOK_ATTACHED_GRABBED,
            Hook::Retracting0(_) => HOOK_RETRACTING0,
            Hook::Retracting1(_) => HOOK_RETRACTING1,
            Hook::Retracting2(_) => HOOK_RETRACTING2,
        }
    }

    pub fn net_pos(self) -> vec2
        ensures { result ≡ net_pos self }
    {
        match self {
            Hook::Retracted => vec2::new(0.0, 0.0),
            Hook::Idle => vec2::new(0.0, 0.0),
            Hook::Flying(pos, _) => pos,
            Hook::Attached(pos) => pos,
            Hook::Grabbed(_, _) => vec2::new(0.0, 0.0),
            Hook::Retracting0(pos) => pos,
            Hook::Retracting1(pos) => pos,
            Hook::Retracting2(pos) => pos,
        }
    }

    pub fn net_dir(self) -> vec2
        ensures { result ≡ net_dir self }
    {
        if let Hook::Flying(_, dir) = self {
            dir
        } else {
            vec2::new(0.0, 0.0)
        }
    }

    // The Rust's `tick` with 0 for none: what is not an i32 is refused where a record is made.
    pub fn tick(self) -> u32
        ensures { result ≡ tick_of self }
    {
        if let Hook::Grabbed(_, tick) = self {
            tick
        } else {
            0
        }
    }

    pub fn net_hooked_player(self) -> i32
        ensures { result ≡ net_hooked_player self }
    {
        let Hook::Grabbed(cid, _) = self else {
            return -1;
        };
        cast_signed(cid.0)
    }

    pub fn from_net(
        hook_state: i32,
        pos: vec2,
        dir: vec2,
        hooked_player: i32,
        hook_tick: Tick,
    ) -> Hook
        ensures { result ≡ hook_from_net hook_state pos dir hooked_player hook_tick }
    {
        match hook_state {
            HOOK_IDLE => Hook::Idle,
            HOOK_FLYING => Hook::Flying(pos, dir),
            HOOK_ATTACHED_GRABBED => Hook::attached_or_grabbed(pos, hooked_player, hook_tick),
            HOOK_RETRACTING0 => Hook::Retracting0(pos),
            HOOK_RETRACTING1 => Hook::Retracting1(pos),
            HOOK_RETRACTING2 => Hook::Retracting2(pos),
            _ => Hook::Retracted,
        }
    }

    // One state of the record stands for both: nobody is held where the player is -1.
    fn attached_or_grabbed(pos: vec2, hooked_player: i32, hook_tick: Tick) -> Hook
        ensures { result ≡ attached_or_grabbed pos hooked_player hook_tick }
    {
        if hooked_player == -1 {
            Hook::Attached(pos)
        } else {
            Hook::Grabbed(
                CharacterId(cast_unsigned(hooked_player)),
                cast_unsigned(hook_tick.0),
            )
        }
    }
}
