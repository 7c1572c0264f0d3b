// The calls of the desk on a lent board, with one record by value.
#![tactic(auto)]

ghost use Rattle.std.specs.Prelude.{◌≡◌, cond};
ghost use Rattle.turn.specs.Number.{result_number};
ghost use Rattle.engine.specs.Refusals.{seat_number, record_number, start_refusal};
ghost use Rattle.engine.specs.Calls.{asked_call};
ghost use Rattle.engine.specs.Promises.{LotsMoved, RestTested, BlankMade, FloorLaid, StartDone, TurnTried, TurnTested, WorkerRetired, RetireTested, BucketTouched, RunTested, Shown, ShowPlaced, ShowTested, CountDone};

use turn::refusal::Refusal;
use turn::{TurnDone, Worker, record};

pub mod tally; // what turns are counted by
mod size; // whether floor, board and list fit together
mod lay; // an opened board
mod take; // a turn or a retiring on the board
mod lots; // the lots on the board
mod moving; // the lots on a second board

// §2.1: the number of workers W, the number of buckets N, the last ticket, and the version that the opening gave every bucket. The spare bytes fill
// it: no byte of it is left to chance.
#[repr(C)]
#[derive(Clone, Copy, Debug, PartialEq, Eq, Hash)]
pub struct Floor {
    pub workers: usize,
    pub buckets: usize,
    pub last: u64,
    pub version: u32,
    pub spare: u32,
}

// What an opening asks for.
#[repr(C)]
#[derive(Clone, Copy, Debug, PartialEq, Eq, Hash)]
pub struct Plan {
    pub workers: usize,
    pub buckets: usize,
    pub version: u32,
}

// What an insert brings: a ticket for a lot.
#[repr(C)]
#[derive(Clone, Copy, Debug, PartialEq, Eq, Hash)]
pub struct Bid {
    pub lot: u64,
    pub ticket: u64,
}

// A worker's number on a floor, and how many records the list has.
#[derive(Clone, Copy, Debug, PartialEq, Eq, Hash)]
pub struct Seat {
    pub floor: Floor,
    pub listed: usize,
    pub worker: usize,
}

// §3.4: what a start asks for: a look, an insert or a remove, with what it brings.
#[derive(Clone, Copy, Debug, PartialEq, Eq, Hash)]
pub enum Asked {
    Look(u64),
    Insert(Bid),
    Remove(u64),
}

// What a start that is done leaves: the worker's record and the floor.
#[derive(Clone, Copy, Debug, PartialEq, Eq, Hash)]
pub struct Begun {
    pub worker: Worker,
    pub floor: Floor,
}

// §22.3: what a move hands back: the floor as it now stands, and the number of refusal, or 0. A number, since a move hands back whichever it
// is given (`LotsMoved`).
#[derive(Clone, Copy, Debug, PartialEq, Eq, Hash)]
pub struct Moved {
    pub floor: Floor,
    pub refusal: u8,
}

// §4.10: what the turns done come to.
#[repr(C)]
#[derive(Clone, Copy, Debug, PartialEq, Eq, Hash)]
pub struct Totals {
    pub turns: u32,
    pub changes: u32,
    pub lost: u32,
    pub full: u32,
}

// The bucket of a lot, and the mark word that stands in it.
#[derive(Clone, Copy, Debug, PartialEq, Eq, Hash)]
pub struct Touched {
    pub word: u64,
    pub bucket: usize,
}

// What stands for a record past the end of a list, byte for byte (`BlankMade`); no call for its worker is accepted.
pub fn blank() -> Worker
    ensures { BlankMade result }
{
    Worker {
        key: 0,
        word: 0,
        seen: 0,
        ticket: 0,
        asleep: 0,
        kind: 0,
        place: 0,
        slot: 0,
        held: 0,
    }
}

// §2.10: opens a floor on a lent board of eight words a bucket, for a list of as many records as there are workers; whoever has the list
// makes its records idle. `floor` is the one that stood before, which the promise names (`FloorLaid`).
pub fn open_floor(
    board: &mut [u64],
    floor: Floor,
    listed: usize,
    plan: Plan,
) -> Result<Floor, Refusal>
    ensures { FloorLaid board.old floor listed plan board.new result }
{
    let opened = Floor {
        workers: plan.workers,
        buckets: plan.buckets,
        last: 0,
        version: plan.version,
        spare: 0,
    };
    if size::are_wrong(opened, board.len(), listed) {
        return Err(Refusal::WrongSizes);
    }
    lay::open(board, plan.buckets, plan.version);
    Ok(opened)
}

impl Asked {
    ghost use Rattle.engine.specs.Calls.{record_for, asked_late, floor_after};

    // §3.4: the record that it begins with.
    #[inline(always)]
    fn record(self) -> Worker
        ensures { result ≡ record_for self }
    {
        match self {
            Asked::Look(lot) => record::look_for(lot),
            Asked::Insert(bid) => record::insert_of(bid.lot, bid.ticket),
            Asked::Remove(lot) => record::remove_of(lot),
        }
    }

    // §6.5: whether it has a ticket that is spent.
    #[inline(always)]
    fn is_late(self, floor: Floor) -> bool
        ensures { result ≡ asked_late floor self }
    {
        match self {
            Asked::Insert(bid) => bid.ticket <= floor.last,
            Asked::Look(_) | Asked::Remove(_) => false,
        }
    }

    // §3.5: the floor after it: an insert's ticket is the last from then on.
    #[inline(always)]
    fn leaves(self, mut floor: Floor) -> Floor
        ensures { result ≡ floor_after floor self }
    {
        if let Asked::Insert(bid) = self {
            floor.last = bid.ticket;
        }
        floor
    }
}

// §3.4, §7.1: starts a look, an insert or a remove. Built into its caller, with what it calls, so that what is asked for is known there.
#[inline(always)]
pub fn start(board: &[u64], seat: Seat, w: Worker, asked: Asked) -> Result<Begun, Refusal>
    ensures { StartDone asked_call board.now seat w asked result }
{
    let floor = seat.floor;
    let late = asked.is_late(floor);
    start_refusal(floor, board.len(), seat.listed, seat.worker, w, late)?;
    Ok(Begun {
        worker: asked.record(),
        floor: asked.leaves(floor),
    })
}

// §7.2: why a start is refused, if it is: of board and list by their lengths.
#[inline(always)]
fn start_refusal(
    floor: Floor,
    words: usize,
    listed: usize,
    worker: usize,
    w: Worker,
    late: bool,
) -> Result<(), Refusal>
    ensures { result_number result ≡ start_refusal floor words listed worker w late }
{
    seat_refusal(floor, words, listed, worker)?;
    record_refusal(w, late)
}

// §6.3, §6.4, §6.5: an idle record is the one that a start is for, so that it is tested first.
#[inline(always)]
fn record_refusal(w: Worker, late: bool) -> Result<(), Refusal>
    ensures { result_number result ≡ record_number w late }
{
    if record::is_idle(w) {
        if late {
            return Err(Refusal::SpentTicket);
        }
        return Ok(());
    }
    if record::is_sound(w) {
        return Err(Refusal::BusyWorker);
    }
    Err(Refusal::BrokenRecord)
}

// §6.1, §6.2: why the sizes or the worker's own number refuse a call, if they do.
#[inline(always)]
fn seat_refusal(floor: Floor, words: usize, listed: usize, worker: usize) -> Result<(), Refusal>
    ensures { result_number result ≡ seat_number floor words listed worker }
{
    if size::are_wrong(floor, words, listed) {
        return Err(Refusal::WrongSizes);
    }
    if floor.workers <= worker {
        return Err(Refusal::NoWorker);
    }
    Ok(())
}

// §4.1, §7.2: one turn of one worker, given its record.
pub fn try_turn(board: &mut [u64], seat: Seat, w: Worker) -> Result<TurnDone, Refusal>
    ensures { TurnTried board.old seat w board.new result }
{
    let floor = seat.floor;
    seat_refusal(floor, board.len(), seat.listed, seat.worker)?;
    take::turn(board, floor, w)
}

// §7.2: why a turn on the same arguments is refused, if it is.
pub fn turn_refusal(board: &[u64], seat: Seat, w: Worker) -> Result<(), Refusal>
    ensures { TurnTested board.now seat w result }
{
    let floor = seat.floor;
    seat_refusal(floor, board.len(), seat.listed, seat.worker)?;
    take::turn_refusal(board, floor, w)
}

// §19.1, §7.2: retires one worker, given its record, and hands back the record as it then stands.
pub fn retire(board: &mut [u64], seat: Seat, w: Worker) -> Result<Worker, Refusal>
    ensures { WorkerRetired board.old seat w board.new result }
{
    let floor = seat.floor;
    seat_refusal(floor, board.len(), seat.listed, seat.worker)?;
    take::retired(board, floor, w)
}

// §7.2: why a retiring on the same arguments is refused, if it is.
pub fn retire_refusal(board: &[u64], seat: Seat, w: Worker) -> Result<(), Refusal>
    ensures { RetireTested board.now seat w result }
{
    let floor = seat.floor;
    seat_refusal(floor, board.len(), seat.listed, seat.worker)?;
    take::retire_refusal(board, floor, w)
}

// §2.4: the bucket that a turn or a retiring with this lot is about, and its mark word; 0 and 0 where the size of the board is wrong, so that
// there is an answer for every board (`BucketTouched`).
pub fn touched_by(board: &[u64], floor: Floor, lot: u64) -> Touched
    ensures { BucketTouched board.now floor lot result }
{
    if size::is_wrong(board, floor) {
        return Touched { word: 0, bucket: 0 };
    }
    let bucket = lots::bucket_of(lot, floor.buckets);
    Touched {
        word: board[8 * bucket],
        bucket,
    }
}

// §7.2: why a run is refused as a whole, if it is: on a board of so many words, with a list of so many records, of so many turns.
pub fn run_refusal(floor: Floor, words: usize, listed: usize, count: usize) -> Result<(), Refusal>
    ensures { RunTested floor words listed count result }
{
    if size::are_wrong(floor, words, listed) {
        return Err(Refusal::WrongSizes);
    }
    if 65535 < count {
        return Err(Refusal::TooLong);
    }
    Ok(())
}

// §2.8, §14.4: where a lot's bucket stands on the board that was lent; an empty part where the show is refused, as §2.8 has it (`Shown`).
pub fn show(board: &[u64], floor: Floor, lot: u64) -> &[u64]
    ensures { Shown board.entry floor lot result }
{
    match show_refusal(board, floor, lot) {
        Ok(()) => {
            let at = lots::first_word(lot, floor.buckets);
            &board[at..at + 8]
        }
        Err(_) => &board[0..0],
    }
}

// §2.8: where that part starts on the board, in words, which C needs beside it; 0 where the show is refused.
pub fn show_start(board: &[u64], floor: Floor, lot: u64) -> usize
    ensures { ShowPlaced board.now floor lot result }
{
    match show_refusal(board, floor, lot) {
        Ok(()) => lots::first_word(lot, floor.buckets),
        Err(_) => 0,
    }
}

// §2.8: why a show on the same arguments is refused, if it is.
pub fn show_refusal(board: &[u64], floor: Floor, lot: u64) -> Result<(), Refusal>
    ensures { ShowTested board.now floor lot result }
{
    if size::is_wrong(board, floor) {
        return Err(Refusal::WrongSizes);
    }
    if lots::is_broken(board, floor, lot) {
        return Err(Refusal::BrokenBucket);
    }
    Ok(())
}

// §2.9: the lots on the board.
pub fn count(board: &[u64], floor: Floor) -> Result<usize, Refusal>
    ensures { CountDone board.now floor result }
{
    if size::is_wrong(board, floor) {
        return Err(Refusal::WrongSizes);
    }
    lots::count(board, floor.buckets)
}

// §6.3, §6.12: the number that the records give a move, with one more: the records before it give this one. It answers for every number
// (`RestTested`), and so takes no enum.
pub fn rest_refusal(number: u8, w: Worker) -> u8
    ensures { RestTested number w result }
{
    if number == Refusal::BrokenRecord.into() {
        return number;
    }
    if record::is_idle(w) {
        return number;
    }
    if record::is_sound(w) {
        return Refusal::NotAtRest.into();
    }
    Refusal::BrokenRecord.into()
}

// §7.1: a move that is refused leaves the floor.
fn not_moved(floor: Floor, refusal: u8) -> Moved
    ensures stays { result.floor ≡ floor }
    ensures number { result.refusal ≡ refusal }
{
    Moved { floor, refusal }
}

// §22.1: moves the lots of one board to another of so many buckets, where the records of the list give this number, or 0.
pub fn move_lots(
    old: &[u64],
    board: &mut [u64],
    floor: Floor,
    listed: usize,
    rest: u8,
    buckets: usize,
) -> Moved
    ensures { LotsMoved old.now board.old floor listed rest buckets board.new result }
{
    let mut after = floor;
    after.buckets = buckets;
    if size::are_wrong(floor, old.len(), listed) {
        return not_moved(floor, Refusal::WrongSizes.into());
    }
    if size::has_wrong_words(after, board.len()) {
        return not_moved(floor, Refusal::WrongSizes.into());
    }
    if rest != 0 {
        return not_moved(floor, rest);
    }
    let mut from = [moving::FREE; moving::SEATS];
    if let Err(why) = moving::seat_all(old, &mut from, floor.buckets, buckets) {
        return not_moved(floor, why.into());
    }
    moving::lay_all(old, board, &from, floor.buckets, buckets, floor.version);
    Moved {
        floor: after,
        refusal: 0,
    }
}
