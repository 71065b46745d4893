// A character's tick among the others.
ghost use Rattle.std.specs.Prelude.{◌≡◌, T, ◌<◌, Ok};
ghost use Rattle.map_tiles.specs.Map.{is_map};
ghost use Rattle.character.specs.Tick.{seats, steer, hooked, tick_at, tick};
ghost use Rattle.character.specs.Places.{Among};
ghost use Rattle.character.specs.Among.{with_pull};

use crate::among::{caught, meet_all};
use crate::places::places_of;
use crate::pulls::held_seat;
use crate::{Character, SEATS, Slot};
use character_hook::{CharacterId, Hook};
use character_meeting::HookPull;
use character_motion::{JumpState, clamp_speed, control_of, grounded, jump, landed, walk};
use game_input::{aim, jumps, move_direction};
use game_records::PlayerInput;
use game_refusals::Refusal;
use game_tuning::{TUNINGS, Tuning, tuning_of};
use map_tiles::{Sides, is_map};
use num_vec2::vec2;

// The character after its tick, whom its hook pulls, and whether it stood on the ground.
#[derive(Clone, Copy)]
pub struct AfterTick {
    pub me: Character,
    pub pull: Option<HookPull>,
    pub grounded: bool,
}

// What a tick leaves of its own character, with whether it stood on the ground: all but whom its hook pulls.
#[derive(Clone, Copy)]
pub struct OwnTick {
    pub me: Character,
    pub grounded: bool,
}

impl Character {
    pub fn tick(
        self,
        id: CharacterId,
        slots: [Slot; SEATS],
        sides: Sides,
        tiles: &[u8],
        input: PlayerInput,
        tunings: [i32; TUNINGS],
    ) -> Result<AfterTick, Refusal>
        ensures { result ≡ tick seats self id slots sides tiles.now input tunings }
    {
        if is_map(sides, tiles) {
            let at = id.0 as usize;
            if at < SEATS {
                return self.tick_at(at, slots, sides, tiles, input, tuning_of(tunings));
            }
            return Err(Refusal::BadId);
        }
        Err(Refusal::BadMap)
    }

    // The same for a map that is one and an id that has a slot.
    fn tick_at(
        self,
        id: usize,
        slots: [Slot; SEATS],
        sides: Sides,
        tiles: &[u8],
        input: PlayerInput,
        tuning: Tuning,
    ) -> Result<AfterTick, Refusal>
        requires { T (is_map sides tiles.now) × (id < seats) }
        ensures { result ≡ tick_at seats self id slots sides tiles.now input tuning }
    {
        let places = places_of(slots);
        let present = places.present;
        let xs = places.xs;
        let ys = places.ys;
        let own = self.tick_among(id, &present, &xs, &ys, sides, tiles, input, tuning)?;
        let me = own.me;
        let grounded = own.grounded;
        let hook = me.hook;
        let held = held_seat(hook, id);
        let other = slots[held];
        let pull = other.pull_by(me, id, held, tuning);
        Ok(AfterTick { me, pull, grounded })
    }

    // The same without whom its hook pulls: of the others it asks who is there and where.
    pub fn tick_among(
        self,
        id: usize,
        present: &[bool; SEATS],
        xs: &[f32; SEATS],
        ys: &[f32; SEATS],
        sides: Sides,
        tiles: &[u8],
        input: PlayerInput,
        tuning: Tuning,
    ) -> Result<OwnTick, Refusal>
        requires { T (is_map sides tiles.now) }
        ensures { Among seats present.now xs.now ys.now (λ ss. with_pull seats ss id tuning result ≡ tick_at seats self id ss sides tiles.now input tuning) }
    {
        let pos = self.pos;
        let on_ground = grounded(sides, tiles, pos);
        let steered = self.steer(on_ground, input, tuning);
        let fired = steered.hook;
        let way = fired.flown(pos, sides, tiles, tuning)?;
        let hook = caught(way, id, present, xs, ys, tuning.player_hooking);
        Ok(steered.hooked(on_ground, hook, id, present, xs, ys, tuning))
    }

    // After the flight: the drag of an attached hook, the count of a held one, the others, and the clamp.
    fn hooked(
        mut self,
        grounded: bool,
        hook: Hook,
        id: usize,
        present: &[bool; SEATS],
        xs: &[f32; SEATS],
        ys: &[f32; SEATS],
        tuning: Tuning,
    ) -> OwnTick
        ensures { Among seats present.now xs.now ys.now (λ ss. with_pull seats ss id tuning (Ok result) ≡ Ok (hooked seats self grounded hook id ss tuning)) }
    {
        let pos = self.pos;
        let direction = self.move_direction;
        let vel = hook.dragged(pos, self.vel, direction, tuning);
        let held = hook.hold(tuning.hook_hold);
        let met = meet_all(present, xs, ys, id, pos, vel, held, tuning);
        let clamped = clamp_speed(met);
        self = self.with_hook(held);
        self.vel = clamped;
        OwnTick { me: self, grounded }
    }

    // Direction and angle, gravity and jump, the hook's button, walking and friction.
    pub fn steer(self, grounded: bool, input: PlayerInput, tuning: Tuning) -> Character
        ensures { result ≡ steer self grounded input tuning }
    {
        let pos = self.pos;
        let idle = self.hook;
        let direction = move_direction(input);
        let before = JumpState {
            vel_y: self.vel.y + tuning.gravity,
            jumped_already: self.jumped_already,
            used_airjump: self.used_airjump,
        };
        let jumped = jump(before, jumps(input), grounded, tuning);
        let hook = idle.fire_at_target(pos, input);
        let vel_x = walk(self.vel.x, direction, control_of(grounded, tuning));
        Character {
            pos: pos,
            vel: vec2::new(vel_x, jumped.vel_y),
            hook: hook,
            jumped_already: jumped.jumped_already,
            used_airjump: landed(grounded, jumped.used_airjump),
            angle: aim(input),
            move_direction: direction,
        }
    }
}
