// Why a call is refused.
ghost use Rattle.std.specs.Prelude.{◌≡◌};
ghost use Rattle.turn.specs.Number.{number, result_number};

// §6: each with its number.
#[derive(Clone, Copy, Debug, PartialEq, Eq, Hash)]
pub enum Refusal {
    WrongSizes = 1, // §6.1: sizes that do not fit together
    NoWorker = 2, // §6.2: there is no such worker
    BrokenRecord = 3, // §6.3: the worker's record is broken
    BusyWorker = 4, // §6.4: a start, and the worker is at a call
    SpentTicket = 5, // §6.5: a ticket that is not above the last
    IdleWorker = 6, // §6.6: a turn, and the worker is idle
    BrokenBucket = 7, // §6.7: a broken bucket
    Malformed = 8, // §6.8: a sheet that cannot be read
    TooLong = 9, // §6.9: a run or a sheet that is too long
    NoSmallClass = 10, // §6.10: all orders of a class that is not a small one
    UntrueIndex = 11, // §6.11: an index that does not tell what the bucket's marks do
    NotAtRest = 12, // §6.12: a move, and a worker is at a call
    CrowdedBucket = 13, // §6.13: a move, and a new bucket would need a fourth slot
}

impl From<Refusal> for u8 {
    ghost from_gives = { λ why n. n ≡ number why };

    fn from(why: Refusal) -> u8 {
        why as u8
    }
}

// §7.2: the number of refusal in an answer, or 0.
pub fn number<T: Drop>(answer: Result<T, Refusal>) -> u8
    ensures { result ≡ result_number answer }
{
    match answer {
        Ok(_) => 0,
        Err(why) => why.into(),
    }
}
