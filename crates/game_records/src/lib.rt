// The records of the protocol that the physics reads and writes, and their numbers in the order of their fields, both ways.
#![tactic(auto)]

ghost use Rattle.std.specs.Prelude.{◌≡◌, ◌≤◌, length};
ghost use Rattle.game_records.specs.Numbers.{core_count, input_count, core_numbers, input_numbers, core_in, input_of_numbers};

// How many numbers a record has, and an input.
pub const CORE: usize = 15;

pub const INPUT: usize = 5;

// A count of steps: never an id.
#[derive(Clone, Copy, PartialEq, Eq, Debug)]
pub struct Tick(pub i32);

// The five of its fields that the physics reads.
#[derive(Clone, Copy, PartialEq, Eq, Debug)]
pub struct PlayerInput {
    pub direction: i32,
    pub target_x: i32,
    pub target_y: i32,
    pub jump: i32,
    pub hook: i32,
}

#[derive(Clone, Copy, PartialEq, Eq, Debug)]
pub struct CharacterCore {
    pub tick: i32,
    pub x: i32,
    pub y: i32,
    pub vel_x: i32,
    pub vel_y: i32,
    pub angle: i32,
    pub direction: i32,
    pub jumped: i32,
    pub hooked_player: i32,
    pub hook_state: i32,
    pub hook_tick: Tick,
    pub hook_x: i32,
    pub hook_y: i32,
    pub hook_dx: i32,
    pub hook_dy: i32,
}

// A function, not `From`: its name says what the numbers are.
pub fn core_numbers(core: CharacterCore) -> [i32; CORE]
    ensures { result ≡ core_numbers core }
{
    [
        core.tick,
        core.x,
        core.y,
        core.vel_x,
        core.vel_y,
        core.angle,
        core.direction,
        core.jumped,
        core.hooked_player,
        core.hook_state,
        core.hook_tick.0,
        core.hook_x,
        core.hook_y,
        core.hook_dx,
        core.hook_dy,
    ]
}

pub fn input_numbers(input: PlayerInput) -> [i32; INPUT]
    ensures { result ≡ input_numbers input }
{
    [
        input.direction,
        input.target_x,
        input.target_y,
        input.jump,
        input.hook,
    ]
}

// The record whose numbers a slice starts with.
pub fn core_of(numbers: &[i32]) -> CharacterCore
    requires { core_count ≤ length numbers.now }
    ensures { result ≡ core_in numbers.now }
{
    CharacterCore {
        tick: numbers[0],
        x: numbers[1],
        y: numbers[2],
        vel_x: numbers[3],
        vel_y: numbers[4],
        angle: numbers[5],
        direction: numbers[6],
        jumped: numbers[7],
        hooked_player: numbers[8],
        hook_state: numbers[9],
        hook_tick: Tick(numbers[10]),
        hook_x: numbers[11],
        hook_y: numbers[12],
        hook_dx: numbers[13],
        hook_dy: numbers[14],
    }
}

// The input whose numbers a slice starts with.
pub fn input_of(numbers: &[i32]) -> PlayerInput
    requires { input_count ≤ length numbers.now }
    ensures { result ≡ input_of_numbers numbers.now }
{
    PlayerInput {
        direction: numbers[0],
        target_x: numbers[1],
        target_y: numbers[2],
        jump: numbers[3],
        hook: numbers[4],
    }
}
