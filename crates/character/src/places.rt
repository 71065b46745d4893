// Who is there and where: all that a tick and a move ask of the others.
ghost use Rattle.character.specs.Tick.{seats};
ghost use Rattle.character.specs.Places.{PlacesOf};

use crate::{SEATS, Slot};

// For each seat whether somebody is there, and where; the coordinates of an absent seat mean nothing.
#[derive(Clone, Copy)]
pub struct Places {
    pub present: [bool; SEATS],
    pub xs: [f32; SEATS],
    pub ys: [f32; SEATS],
}

pub fn places_of(slots: [Slot; SEATS]) -> Places
    ensures { PlacesOf seats slots result.present result.xs result.ys }
{
    let mut present = [false; SEATS];
    let mut xs = [0.0f32; SEATS];
    let mut ys = [0.0f32; SEATS];
    for j in 0..SEATS {
        let slot = slots[j];
        present[j] = slot.present;
        xs[j] = slot.character.pos.x;
        ys[j] = slot.character.pos.y;
    }
    Places { present, xs, ys }
}
