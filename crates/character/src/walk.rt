// A character's move among the others.
ghost use Rattle.std.specs.Prelude.{◌≡◌, T};
ghost use Rattle.map_tiles.specs.Map.{is_map};
ghost use Rattle.character.specs.Tick.{seats};
ghost use Rattle.character.specs.Walk.{player_walk, move_at, move};
ghost use Rattle.character.specs.Places.{Among};

use crate::near::gather;
use crate::places::places_of;
use crate::{Character, SEATS, Slot};
use character_hook::CharacterId;
use character_near::walk_near;
use character_walk::{player_turns, ramped_move};
use game_refusals::Refusal;
use game_tuning::{TUNINGS, Tuning, tuning_of};
use map_lines::MOST_TURNS;
use map_tiles::{Sides, is_map};
use num_vec2::vec2;

impl Character {
    pub fn move_(
        self,
        id: CharacterId,
        slots: [Slot; SEATS],
        sides: Sides,
        tiles: &[u8],
        tunings: [i32; TUNINGS],
    ) -> Result<Character, Refusal>
        ensures { result ≡ move seats self id slots sides tiles.now tunings }
    {
        if is_map(sides, tiles) {
            let at = id.0 as usize;
            if at < SEATS {
                let places = places_of(slots);
                let present = places.present;
                let xs = places.xs;
                let ys = places.ys;
                let tuning = tuning_of(tunings);
                return self.move_among(at, &present, &xs, &ys, sides, tiles, tuning);
            }
            return Err(Refusal::BadId);
        }
        Err(Refusal::BadMap)
    }

    // The same for a map that is one: of the others it asks who is there and where.
    pub fn move_among(
        mut self,
        id: usize,
        present: &[bool; SEATS],
        xs: &[f32; SEATS],
        ys: &[f32; SEATS],
        sides: Sides,
        tiles: &[u8],
        tuning: Tuning,
    ) -> Result<Character, Refusal>
        requires { T (is_map sides tiles.now) }
        ensures { Among seats present.now xs.now ys.now (λ ss. result ≡ move_at seats self id ss sides tiles.now tuning) }
    {
        let from = self.pos;
        let body = ramped_move(sides, tiles, from, self.vel, tuning)?;
        let collision = tuning.player_collision;
        self.pos = player_walk(present, xs, ys, id, from, body.pos, collision)?;
        self.vel = body.vel;
        Ok(self)
    }
}

// The way from one point to another; where players collide, up to the first turn in which somebody is close. Where nobody may be touched there is no
// walk, but it is too far all the same.
fn player_walk(
    present: &[bool; SEATS],
    xs: &[f32; SEATS],
    ys: &[f32; SEATS],
    id: usize,
    from: vec2,
    to: vec2,
    player_collision: f32,
) -> Result<vec2, Refusal>
    ensures { Among seats present.now xs.now ys.now (λ ss. result ≡ player_walk seats ss id from to player_collision) }
{
    if player_collision != 0.0 {
        let distance = vec2::distance(from, to);
        let turns = player_turns(distance);
        let end = from + (to - from);
        let mut near_xs = [0.0f32; SEATS];
        let mut near_ys = [0.0f32; SEATS];
        let count = gather(present, xs, ys, id, from, end, &mut near_xs, &mut near_ys);
        if turns > MOST_TURNS {
            return Err(Refusal::TooFar);
        }
        if count == 0 {
            return Ok(to);
        }
        return Ok(walk_near(&near_xs, &near_ys, count, from, to, distance, turns as u32));
    }
    Ok(to)
}
