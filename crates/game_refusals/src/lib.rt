// The refusals, each with its number, which stands here alone. 1 to 16 are the customer's, 17 is ours.
#![tactic(auto)]

ghost use Rattle.std.specs.Prelude.{◌≡◌};
ghost use Rattle.game_refusals.specs.Refusals.{number_of, number_of_answer};

// Why a call is declined.
#[derive(Clone, Copy, PartialEq, Eq, Debug)]
pub enum Refusal {
    // A map's sides are not 1 to 1,024 each, or its bytes are not width times height.
    BadMap = 1,
    // No seat has this id.
    BadId = 2,
    // No tuning has this index.
    BadTuning = 3,
    // A join with x or y outside -100,000 to 100,000.
    OutOfReach = 4,
    // A join whose box is not clear.
    NotClear = 5,
    // A text at fault.
    BadText = 6,
    // A join of an id that is present.
    Present = 7,
    // An id that is absent.
    Absent = 8,
    // A walk of more turns than there may be.
    TooFar = 9,
    // A hook that has held somebody for more ticks than a record holds.
    TickTooLarge = 10,
    // Packed bytes that end before the last number is complete.
    BytesEnd = 11,
    // A packed number that is not in its shortest form, or has a bit too many.
    BadBytes = 12,
    // A call or a read that its role doesn't allow.
    NotAllowed = 13,
    // A rectangle that has no tiles, a rectangle or a tile that reaches outside the map, or totals that are not one entry for each tile.
    BadArea = 14,
    // A trial with no tunings or more than eight, or with a number of steps outside 0 to 3,000.
    BadTrial = 15,
    // A hook's hold outside 1 to 60 steps.
    BadHold = 16,
    // A lent buffer of numbers that has another length than it must.
    BadLength = 17,
}

impl From<Refusal> for u32 {
    ghost from_gives = { λ refusal n. n ≡ number_of refusal };

    fn from(refusal: Refusal) -> u32 {
        refusal as u32
    }
}

// The number that C programs are answered: 0 where the call was accepted.
pub fn number_of_answer(answer: Result<(), Refusal>) -> u32
    ensures { result ≡ number_of_answer answer }
{
    match answer {
        Ok(_) => 0,
        Err(refusal) => refusal.into(),
    }
}
