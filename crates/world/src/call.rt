// The five calls of a world with their arguments. Type only.

#[derive(Clone, Copy)]
pub enum Call {
    Join {
        id: i32,
        x: i32,
        y: i32,
    },
    Leave {
        id: i32,
    },
    Input {
        id: i32,
        direction: i32,
        target_x: i32,
        target_y: i32,
        jump: i32,
        hook: i32,
    },
    Step,
    Tune {
        index: i32,
        value: i32,
    },
}
