// The world after a call by value.
use super::*;
use world::Call;
use world_step::{run_call, world_after};

// A join is in the world after it. The same join again is refused, and the world after that is as it was.
#[test]
fn world_after_a_join(rt: HostRuntime) {
    let sides = Sides {
        width: 4,
        height: 4,
    };
    let tiles = [0u8; 16];
    let call = Call::Join {
        id: 2,
        x: 64,
        y: 72,
    };
    let before = fresh();
    let joined = world_after(before, run_call(before, sides, &tiles, call));
    let slot = joined.slots[2];
    assert!(rt; slot.present);
    assert!(rt; slot.character.pos.y == 72.0);

    let again = run_call(joined, sides, &tiles, call);
    assert!(rt; again.is_err());
    let kept = world_after(joined, again);
    let slot = kept.slots[2];
    assert!(rt; slot.present);
    assert!(rt; slot.character.pos.y == 72.0);
}
