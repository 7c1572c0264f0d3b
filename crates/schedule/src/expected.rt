// What is expected at a place of a text.
ghost use Rattle.std.specs.Prelude.{◌≡◌};
ghost use Rattle.schedule.specs.Numbers.{expected_number, Numbered};
ghost use Rattle.schedule.specs.Saying.{expected};

// What is expected at a place of a text.
#[derive(Clone, Copy, Debug, PartialEq, Eq, Hash)]
pub enum Expected {
    Floor = 1,
    WorkerCount = 2,
    Workers = 3,
    BucketCount = 4,
    Buckets = 5,
    Version = 6,
    VersionNumber = 7,
    LineEnd = 8,
    WorkerOrTurns = 9,
    WorkerNumber = 10,
    Verb = 11,
    For = 12,
    Lot = 13,
    LotNumber = 14,
    Ticket = 15,
    TicketNumber = 16,
    Turn = 17,
    Times = 18,
    Room = 19,
}

impl Expected {
    // Its number.
    pub fn number(self) -> u8
        ensures { result ≡ expected_number self }
    {
        self as u8
    }

    // What is said where it is not there.
    #[tactic(auto, unfolding(crate::specs::Saying::expected, pen::specs::Words::bytes))]
    pub fn said(self) -> &'static [u8]
        ensures { result.now ≡ expected (expected_number self) }
    {
        match self {
            Expected::Floor => b"expected floor, which comes first",
            Expected::WorkerCount => b"expected the number of workers, 0 to 255",
            Expected::Workers => b"expected workers",
            Expected::BucketCount => b"expected the number of buckets, 0 to 65535",
            Expected::Buckets => b"expected buckets",
            Expected::Version => b"expected version",
            Expected::VersionNumber => b"expected a version, 0 to 4294967295",
            Expected::LineEnd => b"expected the end of the line",
            Expected::WorkerOrTurns => b"expected worker or turns",
            Expected::WorkerNumber => b"expected the number of a worker, 0 to 255",
            Expected::Verb => b"expected looks, inserts or removes",
            Expected::For => b"expected for",
            Expected::Lot => b"expected lot",
            Expected::LotNumber => b"expected the number of a lot, 0 to 18446744073709551615",
            Expected::Ticket => b"expected ticket",
            Expected::TicketNumber => b"expected the number of a ticket, 0 to 18446744073709551615",
            Expected::Turn => b"expected whose turn it is, 0 to 255",
            Expected::Times => b"expected how many turns, x1 to x16384",
            Expected::Room => b"with this the sheet would be longer than 16384 bytes",
        }
    }
}

// A number of nothing that is expected.
#[derive(Clone, Copy, Debug, PartialEq, Eq, Hash)]
pub struct UnknownNumber(pub u8);

impl TryFrom<u8> for Expected {
    type Error = UnknownNumber;

    ghost try_from_gives = { Numbered };

    fn try_from(number: u8) -> Result<Self, UnknownNumber> {
        match number {
            1 => Ok(Expected::Floor),
            2 => Ok(Expected::WorkerCount),
            3 => Ok(Expected::Workers),
            4 => Ok(Expected::BucketCount),
            5 => Ok(Expected::Buckets),
            6 => Ok(Expected::Version),
            7 => Ok(Expected::VersionNumber),
            8 => Ok(Expected::LineEnd),
            9 => Ok(Expected::WorkerOrTurns),
            10 => Ok(Expected::WorkerNumber),
            11 => Ok(Expected::Verb),
            12 => Ok(Expected::For),
            13 => Ok(Expected::Lot),
            14 => Ok(Expected::LotNumber),
            15 => Ok(Expected::Ticket),
            16 => Ok(Expected::TicketNumber),
            17 => Ok(Expected::Turn),
            18 => Ok(Expected::Times),
            19 => Ok(Expected::Room),
            _ => Err(UnknownNumber(number)),
        }
    }
}
