// The C interface of the library `ponguriena`: an export for each of its functions, with the same clauses. A call that may be refused answers the refusal's number, or 0.
#![tactic(auto)]

ghost use Rattle.std.specs.Prelude.{◌≡◌, [], ◌∷◌};
ghost use Rattle.map_tiles.specs.Map.{sides_of};
ghost use Rattle.world.specs.Run.{input_of};
ghost use Rattle.world_buffers.specs.Buffers.{fresh_in, join_in, leave_in, input_in, tune_in};
ghost use Rattle.world_buffers.specs.Stepping.{step_in};
ghost use Rattle.ponguriena.specs.ByRole.{call_as, step_as, read_in_as, send_as, send_step_as, search_as};
ghost use Rattle.world_buffers.specs.Readers.{read_in};
ghost use Rattle.aim_scan.specs.Scan.{scanned};
ghost use Rattle.game_packed.specs.Lent.{pack_in, unpack_in};
ghost use Rattle.map_totals.specs.Calls.{build_in, area_in, change_in};
ghost use Rattle.character.specs.Tick.{seats};
ghost use Rattle.send_rule.specs.Send.{no_copies, fresh_screen};
ghost use Rattle.send_numbers.specs.Copies.{sender_count, screen_count, copies_encoding, screen_encoding};
ghost use Rattle.send_buffers.specs.Sends.{fresh_buffer, send_in, send_step_in};
ghost use Rattle.send_buffers.specs.Screens.{receive_in, shown_in};
ghost use Rattle.search_calls.specs.Numbers.{search_in};
ghost use Rattle.trial_rule.specs.Calls.{trial_in};
ghost use Rattle.ponguriena.specs.Layout.{layout};
ghost use Rattle.world.specs.declared.call.Call.TheVariants as call;
ghost use Rattle.world.specs.declared.reading.Query.TheVariants as query;

// The calls on a world that is kept as the numbers of a lent buffer, by the number of a role.

#[unsafe(no_mangle)]
pub extern "C" fn ponguriena_fresh(world: &mut [i32]) -> u32
    ensures { fresh_in world.old ≡ record { number = result; world = world.new } }
{
    ponguriena::ponguriena_fresh(world)
}

#[unsafe(no_mangle)]
pub extern "C" fn ponguriena_join(
    role: i32,
    world: &mut [i32],
    width: u32,
    height: u32,
    tiles: &[u8],
    id: i32,
    x: i32,
    y: i32,
) -> u32
    ensures { call_as role (call.Join id x y) world.old (join_in (sides_of width height) tiles.now world.old id x y) ≡ record { number = result; world = world.new } }
{
    ponguriena::ponguriena_join(role, world, width, height, tiles, id, x, y)
}

#[unsafe(no_mangle)]
pub extern "C" fn ponguriena_leave(role: i32, world: &mut [i32], id: i32) -> u32
    ensures { call_as role (call.Leave id) world.old (leave_in world.old id) ≡ record { number = result; world = world.new } }
{
    ponguriena::ponguriena_leave(role, world, id)
}

#[unsafe(no_mangle)]
pub extern "C" fn ponguriena_input(
    role: i32,
    world: &mut [i32],
    id: i32,
    direction: i32,
    target_x: i32,
    target_y: i32,
    jump: i32,
    hook: i32,
) -> u32
    ensures { call_as role (call.Input id direction target_x target_y jump hook) world.old (input_in world.old id (input_of direction target_x target_y jump hook)) ≡ record { number = result; world = world.new } }
{
    ponguriena::ponguriena_input(role, world, id, direction, target_x, target_y, jump, hook)
}

#[unsafe(no_mangle)]
pub extern "C" fn ponguriena_tune(role: i32, world: &mut [i32], index: i32, value: i32) -> u32
    ensures { call_as role (call.Tune index value) world.old (tune_in world.old index value) ≡ record { number = result; world = world.new } }
{
    ponguriena::ponguriena_tune(role, world, index, value)
}

#[unsafe(no_mangle)]
pub extern "C" fn ponguriena_step(
    role: i32,
    world: &mut [i32],
    width: u32,
    height: u32,
    tiles: &[u8],
    records: &mut [i32],
    removed: &mut [i32],
    count: &mut usize,
) -> u32
    ensures { step_as role world.old (record { records = records.entry.now; removed = removed.old; count = count.old }) (step_in (sides_of width height) tiles.now world.old (record { records = records.entry.now; removed = removed.old; count = count.old })) ≡ record { number = result; world = world.new; told = record { records = records.exit.now; removed = removed.new; count = count.new } } }
{
    ponguriena::ponguriena_step(role, world, width, height, tiles, records, removed, count)
}

// What is read of a world that is kept as the numbers of a lent buffer, by the number of a role.

#[unsafe(no_mangle)]
pub extern "C" fn ponguriena_record(role: i32, world: &[i32], id: i32, record: &mut [i32]) -> u32
    ensures { read_in_as role (query.Record id) «record».old (read_in (query.Record id) world.now «record».old) ≡ record { number = result; numbers = «record».new } }
{
    ponguriena::ponguriena_record(role, world, id, record)
}

#[unsafe(no_mangle)]
pub extern "C" fn ponguriena_player_input(
    role: i32,
    world: &[i32],
    id: i32,
    input: &mut [i32],
) -> u32
    ensures { read_in_as role (query.PlayerInput id) input.old (read_in (query.PlayerInput id) world.now input.old) ≡ record { number = result; numbers = input.new } }
{
    ponguriena::ponguriena_player_input(role, world, id, input)
}

#[unsafe(no_mangle)]
pub extern "C" fn ponguriena_tuning(role: i32, world: &[i32], index: i32, value: &mut i32) -> u32
    ensures { read_in_as role (query.Tuning index) (value.old ∷ []) (read_in (query.Tuning index) world.now (value.old ∷ [])) ≡ record { number = result; numbers = value.new ∷ [] } }
{
    ponguriena::ponguriena_tuning(role, world, index, value)
}

#[unsafe(no_mangle)]
pub extern "C" fn ponguriena_floor_mark(role: i32, world: &[i32], id: i32, mark: &mut i32) -> u32
    ensures { read_in_as role (query.FloorMark id) (mark.old ∷ []) (read_in (query.FloorMark id) world.now (mark.old ∷ [])) ≡ record { number = result; numbers = mark.new ∷ [] } }
{
    ponguriena::ponguriena_floor_mark(role, world, id, mark)
}

// The aim angle of a target. No world is lent, so no role is named, and nothing is refused.

#[unsafe(no_mangle)]
pub extern "C" fn ponguriena_aim(target_x: i32, target_y: i32, entries_read: &mut u32) -> i32
    ensures { scanned target_x target_y ≡ record { angle = result; read = entries_read.new } }
{
    ponguriena::ponguriena_aim(target_x, target_y, entries_read)
}

// Records as bytes.

#[unsafe(no_mangle)]
pub extern "C" fn ponguriena_pack(record: &[i32], bytes: &mut [u8], count: &mut usize) -> u32
    ensures { pack_in «record».now bytes.old count.old ≡ record { number = result; bytes = bytes.new; count = count.new } }
{
    ponguriena::ponguriena_pack(record, bytes, count)
}

#[unsafe(no_mangle)]
pub extern "C" fn ponguriena_unpack(bytes: &[u8], record: &mut [i32], used: &mut usize) -> u32
    ensures { unpack_in bytes.now «record».old used.old ≡ record { number = result; numbers = «record».new; used = used.new } }
{
    ponguriena::ponguriena_unpack(bytes, record, used)
}

// The solid tiles of a map's rectangles. No world is lent, so no role is named.

#[unsafe(no_mangle)]
pub extern "C" fn ponguriena_area_build(
    width: u32,
    height: u32,
    tiles: &[u8],
    totals: &mut [u32],
) -> u32
    ensures { build_in (sides_of width height) tiles.now totals.old ≡ record { number = result; totals = totals.new } }
{
    ponguriena::ponguriena_area_build(width, height, tiles, totals)
}

#[unsafe(no_mangle)]
pub extern "C" fn ponguriena_area_count(
    width: u32,
    height: u32,
    tiles: &[u8],
    totals: &[u32],
    left: i32,
    top: i32,
    columns: i32,
    rows: i32,
    count: &mut u32,
) -> u32
    ensures { area_in (sides_of width height) tiles.now totals.now left top columns rows count.old ≡ record { number = result; count = count.new } }
{
    ponguriena::ponguriena_area_count(
        width, height, tiles, totals, left, top, columns, rows, count,
    )
}

#[unsafe(no_mangle)]
pub extern "C" fn ponguriena_area_change(
    width: u32,
    height: u32,
    tiles: &mut [u8],
    totals: &mut [u32],
    column: i32,
    row: i32,
    byte: u8,
) -> u32
    ensures { change_in (sides_of width height) tiles.old totals.old column row byte ≡ record { number = result; tiles = tiles.new; totals = totals.new } }
{
    ponguriena::ponguriena_area_change(width, height, tiles, totals, column, row, byte)
}

// A sender beside a world, by the number of a role, and a screen.

#[unsafe(no_mangle)]
pub extern "C" fn ponguriena_sender_fresh(sender: &mut [i32]) -> u32
    ensures { fresh_buffer sender_count (copies_encoding (no_copies seats)) sender.old ≡ record { number = result; numbers = sender.new } }
{
    ponguriena::ponguriena_sender_fresh(sender)
}

#[unsafe(no_mangle)]
pub extern "C" fn ponguriena_send_leave(
    role: i32,
    world: &mut [i32],
    sender: &mut [i32],
    id: i32,
    passed: &mut [i32],
    count: &mut usize,
) -> u32
    ensures { send_as role (call.Leave id) world.old (record { sender = sender.entry.now; passed = passed.old; count = count.old }) (send_in (call.Leave id) (leave_in world.old id) world.old (record { sender = sender.entry.now; passed = passed.old; count = count.old })) ≡ record { left = record { number = result; world = world.new }; sent = record { sender = sender.exit.now; passed = passed.new; count = count.new } } }
{
    ponguriena::ponguriena_send_leave(role, world, sender, id, passed, count)
}

#[unsafe(no_mangle)]
pub extern "C" fn ponguriena_send_tune(
    role: i32,
    world: &mut [i32],
    sender: &mut [i32],
    index: i32,
    value: i32,
    passed: &mut [i32],
    count: &mut usize,
) -> u32
    ensures { send_as role (call.Tune index value) world.old (record { sender = sender.entry.now; passed = passed.old; count = count.old }) (send_in (call.Tune index value) (tune_in world.old index value) world.old (record { sender = sender.entry.now; passed = passed.old; count = count.old })) ≡ record { left = record { number = result; world = world.new }; sent = record { sender = sender.exit.now; passed = passed.new; count = count.new } } }
{
    ponguriena::ponguriena_send_tune(role, world, sender, index, value, passed, count)
}

#[unsafe(no_mangle)]
pub extern "C" fn ponguriena_send_step(
    role: i32,
    world: &mut [i32],
    sender: &mut [i32],
    width: u32,
    height: u32,
    tiles: &[u8],
    records: &mut [i32],
    removed: &mut [i32],
    removed_count: &mut usize,
    passed: &mut [i32],
    count: &mut usize,
) -> u32
    ensures { send_step_as role world.old (record { records = records.entry.now; removed = removed.old; count = removed_count.old }) (record { sender = sender.entry.now; passed = passed.old; count = count.old }) (send_step_in (sides_of width height) tiles.now world.old (record { records = records.entry.now; removed = removed.old; count = removed_count.old }) (record { sender = sender.entry.now; passed = passed.old; count = count.old })) ≡ record { left = record { number = result; world = world.new; told = record { records = records.exit.now; removed = removed.new; count = removed_count.new } }; sent = record { sender = sender.exit.now; passed = passed.new; count = count.new } } }
{
    ponguriena::ponguriena_send_step(
        role,
        world,
        sender,
        width,
        height,
        tiles,
        records,
        removed,
        removed_count,
        passed,
        count,
    )
}

#[unsafe(no_mangle)]
pub extern "C" fn ponguriena_screen_fresh(screen: &mut [i32]) -> u32
    ensures { fresh_buffer screen_count (screen_encoding (fresh_screen seats)) screen.old ≡ record { number = result; numbers = screen.new } }
{
    ponguriena::ponguriena_screen_fresh(screen)
}

#[unsafe(no_mangle)]
pub extern "C" fn ponguriena_receive(
    screen: &mut [i32],
    width: u32,
    height: u32,
    tiles: &[u8],
    passed: &[i32],
    used: &mut usize,
) -> u32
    ensures { receive_in (sides_of width height) tiles.now screen.old passed.now used.old ≡ record { number = result; screen = screen.new; used = used.new } }
{
    ponguriena::ponguriena_receive(screen, width, height, tiles, passed, used)
}

#[unsafe(no_mangle)]
pub extern "C" fn ponguriena_shown(screen: &[i32], id: i32, record: &mut [i32]) -> u32
    ensures { shown_in screen.now id «record».old ≡ record { number = result; numbers = «record».new } }
{
    ponguriena::ponguriena_shown(screen, id, record)
}

// How somebody could get to a place, by the number of a role.

#[unsafe(no_mangle)]
pub extern "C" fn ponguriena_search(
    role: i32,
    world: &[i32],
    width: u32,
    height: u32,
    tiles: &[u8],
    id: i32,
    x: i32,
    y: i32,
    way: &mut [i32],
) -> u32
    ensures { search_as role way.old (search_in (sides_of width height) tiles.now world.now id x y way.old) ≡ record { number = result; numbers = way.new } }
{
    ponguriena::ponguriena_search(role, world, width, height, tiles, id, x, y, way)
}

// Trial players for tunings. No world is lent, so no role is named.

#[unsafe(no_mangle)]
pub extern "C" fn ponguriena_trial(
    width: u32,
    height: u32,
    tiles: &[u8],
    joins: &[i32],
    targets: &[i32],
    tunings: &[i32],
    steps: i32,
    res: &mut [i32],
) -> u32
    ensures { trial_in seats (sides_of width height) tiles.now joins.now targets.now tunings.now steps res.old ≡ record { number = result; result = res.new } }
{
    ponguriena::ponguriena_trial(width, height, tiles, joins, targets, tunings, steps, res)
}

// Which numbers a world, a sender, a screen and what is passed along consist of, as one number: who keeps them from one version to the next compares it.

#[unsafe(no_mangle)]
pub extern "C" fn ponguriena_layout() -> u32
    ensures { result ≡ layout }
{
    ponguriena::ponguriena_layout()
}
