// The desk's library: every call over a lent board, one lent list of worker records and, where it keeps or reads one, a lent index. What holds
// the list is thin: it takes out the record that the call concerns, lets the engine or the hall go on with it, and puts it back. C has
// them by crate floor_c: include/desk.h.
#![tactic(auto)]

ghost use Rattle.engine.specs.Calls.{asked_call};
ghost use Rattle.engine.specs.Promises.{Shown};
ghost use Rattle.floor.specs.Promises.{FloorOpened, StartLeft, TurnLeft, RetireLeft, RunLeft, MoveLeft, PartShown, ShowNumbered, CountLeft, TotalLeft, NextLeft};

use engine::{Asked, Floor, Plan, Totals, tally};
use turn::{Worker, record, refusal};

mod list; // records out of the list and back, and a turn of one of them
mod told; // answers that cross to C

// For all orders, which reads the list in a crate of its own (decision 132).
pub use list::take_at;

// What crosses to C stands in numbers and flags, as include/desk.h has it: C has no Result, no Option and no enum with values.

// The floor as it now stands, and the number of refusal, or 0.
#[repr(C)]
#[derive(Clone, Copy, Debug, PartialEq, Eq, Hash)]
pub struct Outcome {
    pub floor: Floor,
    pub refusal: u8,
}

// §14.9: a turn's report in numbers: whether the call ended and with which answer, the bucket with its mark word before the turn and after
// it, the action (1 read, 2 store, 3 won, 4 lost; 0 where the turn was refused), and whether it was a full round.
#[repr(C)]
#[derive(Clone, Copy, Debug, PartialEq, Eq, Hash)]
pub struct ReportOutcome {
    pub answer: u64,
    pub before: u64,
    pub after: u64,
    pub bucket: usize,
    pub action: u8,
    pub ended: bool,
    pub full: bool,
}

// A turn's report, and the number of refusal, or 0.
#[repr(C)]
#[derive(Clone, Copy, Debug, PartialEq, Eq, Hash)]
pub struct TurnOutcome {
    pub report: ReportOutcome,
    pub refusal: u8,
}

// The last turn's report, what the turns done come to, and the number that stopped the run, or 0.
#[repr(C)]
#[derive(Clone, Copy, Debug, PartialEq, Eq, Hash)]
pub struct RunOutcome {
    pub last: ReportOutcome,
    pub totals: Totals,
    pub stop: u8,
}

// So many words of the lent board, from this one on.
#[repr(C)]
#[derive(Clone, Copy, Debug, PartialEq, Eq, Hash)]
pub struct Part {
    pub start: usize,
    pub words: usize,
}

// The lots on the board, and the number of refusal, or 0.
#[repr(C)]
#[derive(Clone, Copy, Debug, PartialEq, Eq, Hash)]
pub struct CountOutcome {
    pub lots: usize,
    pub refusal: u8,
}

// §21.3: the number of valid slots that the index has, and the number of refusal, or 0.
#[repr(C)]
#[derive(Clone, Copy, Debug, PartialEq, Eq, Hash)]
pub struct TotalOutcome {
    pub total: u64,
    pub refusal: u8,
}

// §21.4: whether there is a next occupied bucket, and which, and the number of refusal, or 0.
#[repr(C)]
#[derive(Clone, Copy, Debug, PartialEq, Eq, Hash)]
pub struct NextOutcome {
    pub bucket: usize,
    pub found: bool,
    pub refusal: u8,
}

// §1.1: opens a floor. `floor` is the one that stood before, and comes back where the opening is refused.
pub fn desk_open_floor(
    board: &mut [u64],
    records: &mut [Worker],
    index: &mut [u64],
    floor: Floor,
    plan: Plan,
) -> Outcome
    ensures { FloorOpened board.old records.old index.old floor plan board.new records.new index.new result }
{
    match hall::open_floor(board, index, floor, records.len(), plan) {
        Ok(floor) => {
            list::lap(records, |_, _| record::idle());
            Outcome { floor, refusal: 0 }
        }
        Err(why) => Outcome {
            floor,
            refusal: why.into(),
        },
    }
}

// §1.1, §3.4: starts a look, an insert or a remove on a worker. Built into each of floor_c's three exports, which name what is asked for.
#[inline(always)]
pub fn desk_start(
    board: &[u64],
    records: &mut [Worker],
    floor: Floor,
    worker: usize,
    asked: Asked,
) -> Outcome
    ensures { StartLeft asked_call board.now records.old floor worker asked records.new result }
{
    match list::begin_at(board, records, floor, worker, asked) {
        Ok(floor) => Outcome { floor, refusal: 0 },
        Err(why) => Outcome {
            floor,
            refusal: why.into(),
        },
    }
}

// §1.1: gives a worker one turn.
pub fn desk_turn(
    board: &mut [u64],
    records: &mut [Worker],
    index: &mut [u64],
    floor: Floor,
    worker: usize,
) -> TurnOutcome
    ensures { TurnLeft board.old records.old index.old floor worker board.new records.new index.new result }
{
    told::turn(list::turn_at(board, records, index, floor, worker))
}

// §1.1: retires a worker; the number of refusal, or 0, as C has it.
pub fn desk_retire(
    board: &mut [u64],
    records: &mut [Worker],
    index: &mut [u64],
    floor: Floor,
    worker: usize,
) -> u8
    ensures { RetireLeft board.old records.old index.old floor worker board.new records.new index.new result }
{
    refusal::number(list::act(
        board,
        records,
        index,
        floor,
        worker,
        |board, index, seat, w| { Ok((hall::retire(board, index, seat, w)?, ())) },
    ))
}

// §1.1: runs a list of turns, each a worker's number, until one is refused.
pub fn desk_run(
    board: &mut [u64],
    records: &mut [Worker],
    index: &mut [u64],
    floor: Floor,
    turns: &[u8],
) -> RunOutcome
    ensures { RunLeft board.old records.old index.old floor turns.now board.new records.new index.new result }
{
    let mut totals = tally::nothing();
    let mut last = turn::no_report();
    let (words, listed, entries) = (board.len(), records.len(), index.len());
    if let Err(why) = hall::run_refusal(floor, words, listed, entries, turns.len()) {
        return told::run(last, totals, why.into());
    }
    for &worker in turns {
        match list::turn_at(board, records, index, floor, worker as usize) {
            Ok(done) => {
                totals = tally::add(totals, done.place, done.report);
                last = done.report;
            }
            Err(why) => return told::run(last, totals, why.into()),
        }
    }
    told::run(last, totals, 0)
}

// §1.1, §22.1: moves the lots to a second board, of so many buckets.
pub fn desk_move(
    old: &[u64],
    board: &mut [u64],
    records: &[Worker],
    index: &mut [u64],
    floor: Floor,
    buckets: usize,
) -> Outcome
    ensures { MoveLeft old.now board.old records.now index.old floor buckets board.new index.new result }
{
    let listed = records.len();
    let rest = list::rest_refusal(records);
    let moved = hall::move_lots(old, board, index, floor, listed, rest, buckets);
    Outcome {
        floor: moved.floor,
        refusal: moved.refusal,
    }
}

// §1.1, §14.4: where a lot's bucket stands on the board that was lent; an empty part where the show is refused.
pub fn show(board: &[u64], floor: Floor, lot: u64) -> &[u64]
    ensures { Shown board.entry floor lot result }
{
    engine::show(board, floor, lot)
}

// Which words those are, for C, to which no reference can be handed back.
pub fn desk_show(board: &[u64], floor: Floor, lot: u64) -> Part
    ensures { PartShown board.now floor lot result }
{
    let part = engine::show(board, floor, lot);
    Part {
        start: engine::show_start(board, floor, lot),
        words: part.len(),
    }
}

// §2.8: the number of refusal of a show on the same arguments, or 0, as C has it.
pub fn desk_show_refusal(board: &[u64], floor: Floor, lot: u64) -> u8
    ensures { ShowNumbered board.now floor lot result }
{
    refusal::number(engine::show_refusal(board, floor, lot))
}

// §1.1: counts the lots on the board.
pub fn desk_count(board: &[u64], floor: Floor) -> CountOutcome
    ensures { CountLeft board.now floor result }
{
    told::count(engine::count(board, floor))
}

// §1.1, §21.3: the display asks for the number of valid slots.
pub fn desk_total(board: &[u64], index: &[u64], floor: Floor) -> TotalOutcome
    ensures { TotalLeft board.now index.now floor result }
{
    told::total(hall::total(board, index, floor))
}

// §1.1, §21.4: the display asks for the first occupied bucket at or after one.
pub fn desk_next_occupied(board: &[u64], index: &[u64], floor: Floor, from: usize) -> NextOutcome
    ensures { NextLeft board.now index.now floor from result }
{
    told::next(hall::next_occupied(board, index, floor, from))
}
