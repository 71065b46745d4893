// Where a character walks, and where it looks.
ghost use Rattle.std.specs.Prelude.{◌≡◌};
ghost use Rattle.game_input.specs.Direction.{from_int, as_int, as_float, angle_to_net, angle_from_net};

#[derive(Clone, Copy)]
pub enum MoveDirection {
    Left,
    None,
    Right,
}

impl MoveDirection {
    // A function, not `From`: the name is lib.rs's.
    pub fn from_int(i: i32) -> MoveDirection
        ensures { result ≡ from_int i }
    {
        if i < 0 {
            MoveDirection::Left
        } else if i > 0 {
            MoveDirection::Right
        } else {
            MoveDirection::None
        }
    }

    pub fn as_int(self) -> i32
        ensures { result ≡ as_int self }
    {
        match self {
            MoveDirection::Left => -1,
            MoveDirection::None => 0,
            MoveDirection::Right => 1,
        }
    }

    pub fn as_float(self) -> f32
        ensures { result ≡ as_float self }
    {
        num_convert::i32_to_f32(self.as_int())
    }
}

#[derive(Clone, Copy)]
pub struct Angle {
    pub radians: f32,
}

impl Angle {
    pub fn from_radians(radians: f32) -> Angle
        ensures { result ≡ record { radians = radians } }
    {
        Angle { radians: radians }
    }

    pub fn to_radians(self) -> f32
        ensures { result ≡ self.radians }
    {
        self.radians
    }

    pub fn to_net(self) -> i32
        ensures { result ≡ angle_to_net self }
    {
        num_convert::trunc_to_i32(self.to_radians() * 256.0)
    }

    pub fn from_net(net: i32) -> Angle
        ensures { result ≡ angle_from_net net }
    {
        Angle::from_radians(num_convert::from_256ths(net))
    }
}
