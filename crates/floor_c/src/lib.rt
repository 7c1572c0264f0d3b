// The desk under the names that C calls it by (include/desk.h). A crate that others are built on is no static library, so this one stands over
// it: each export promises what the function of its name promises there (crates/floor/src/lib.rt), clause by clause; the three starts are one there.
#![tactic(auto)]

ghost use Rattle.engine.specs.Calls.{look_call, insert_call, remove_call};
ghost use Rattle.floor.specs.Promises.{FloorOpened, StartLeft, TurnLeft, RetireLeft, RunLeft, MoveLeft, PartShown, ShowNumbered, CountLeft, TotalLeft, NextLeft};

use engine::{Asked, Bid, Floor, Plan};
use floor::{CountOutcome, NextOutcome, Outcome, Part, RunOutcome, TotalOutcome, TurnOutcome};
use turn::Worker;

// §1.1: opens a floor. `floor` is the one that stood before, and comes back where the opening is refused.
#[unsafe(no_mangle)]
pub extern "C" fn desk_open_floor(
    board: &mut [u64],
    records: &mut [Worker],
    index: &mut [u64],
    floor: Floor,
    plan: Plan,
) -> Outcome
    ensures { FloorOpened board.old records.old index.old floor plan board.new records.new index.new result }
{
    floor::desk_open_floor(board, records, index, floor, plan)
}

// §1.1: starts a look on a worker.
#[unsafe(no_mangle)]
pub extern "C" fn desk_start_look(
    board: &[u64],
    records: &mut [Worker],
    floor: Floor,
    worker: usize,
    lot: u64,
) -> Outcome
    ensures { StartLeft look_call board.now records.old floor worker lot records.new result }
{
    floor::desk_start(board, records, floor, worker, Asked::Look(lot))
}

// §1.1: starts an insert on a worker.
#[unsafe(no_mangle)]
pub extern "C" fn desk_start_insert(
    board: &[u64],
    records: &mut [Worker],
    floor: Floor,
    worker: usize,
    bid: Bid,
) -> Outcome
    ensures { StartLeft insert_call board.now records.old floor worker bid records.new result }
{
    floor::desk_start(board, records, floor, worker, Asked::Insert(bid))
}

// §1.1: starts a remove on a worker.
#[unsafe(no_mangle)]
pub extern "C" fn desk_start_remove(
    board: &[u64],
    records: &mut [Worker],
    floor: Floor,
    worker: usize,
    lot: u64,
) -> Outcome
    ensures { StartLeft remove_call board.now records.old floor worker lot records.new result }
{
    floor::desk_start(board, records, floor, worker, Asked::Remove(lot))
}

// §1.1: gives a worker one turn.
#[unsafe(no_mangle)]
pub extern "C" fn desk_turn(
    board: &mut [u64],
    records: &mut [Worker],
    index: &mut [u64],
    floor: Floor,
    worker: usize,
) -> TurnOutcome
    ensures { TurnLeft board.old records.old index.old floor worker board.new records.new index.new result }
{
    floor::desk_turn(board, records, index, floor, worker)
}

// §1.1: retires a worker; the number of refusal, or 0.
#[unsafe(no_mangle)]
pub extern "C" fn desk_retire(
    board: &mut [u64],
    records: &mut [Worker],
    index: &mut [u64],
    floor: Floor,
    worker: usize,
) -> u8
    ensures { RetireLeft board.old records.old index.old floor worker board.new records.new index.new result }
{
    floor::desk_retire(board, records, index, floor, worker)
}

// §1.1: runs a list of turns, each a worker's number, until one is refused.
#[unsafe(no_mangle)]
pub extern "C" fn desk_run(
    board: &mut [u64],
    records: &mut [Worker],
    index: &mut [u64],
    floor: Floor,
    turns: &[u8],
) -> RunOutcome
    ensures { RunLeft board.old records.old index.old floor turns.now board.new records.new index.new result }
{
    floor::desk_run(board, records, index, floor, turns)
}

// §1.1, §22.1: moves the lots to a second board, of so many buckets.
#[unsafe(no_mangle)]
pub extern "C" fn desk_move(
    old: &[u64],
    board: &mut [u64],
    records: &[Worker],
    index: &mut [u64],
    floor: Floor,
    buckets: usize,
) -> Outcome
    ensures { MoveLeft old.now board.old records.now index.old floor buckets board.new index.new result }
{
    floor::desk_move(old, board, records, index, floor, buckets)
}

// §1.1, §14.4: which words of the lent board are the bucket of a lot; no reference can be handed back to C.
#[unsafe(no_mangle)]
pub extern "C" fn desk_show(board: &[u64], floor: Floor, lot: u64) -> Part
    ensures { PartShown board.now floor lot result }
{
    floor::desk_show(board, floor, lot)
}

// §2.8: the number of refusal of a show on the same arguments, or 0.
#[unsafe(no_mangle)]
pub extern "C" fn desk_show_refusal(board: &[u64], floor: Floor, lot: u64) -> u8
    ensures { ShowNumbered board.now floor lot result }
{
    floor::desk_show_refusal(board, floor, lot)
}

// §1.1: counts the lots on the board.
#[unsafe(no_mangle)]
pub extern "C" fn desk_count(board: &[u64], floor: Floor) -> CountOutcome
    ensures { CountLeft board.now floor result }
{
    floor::desk_count(board, floor)
}

// §1.1, §21.3: the display asks for the number of valid slots.
#[unsafe(no_mangle)]
pub extern "C" fn desk_total(board: &[u64], index: &[u64], floor: Floor) -> TotalOutcome
    ensures { TotalLeft board.now index.now floor result }
{
    floor::desk_total(board, index, floor)
}

// §1.1, §21.4: the display asks for the first occupied bucket at or after one.
#[unsafe(no_mangle)]
pub extern "C" fn desk_next_occupied(
    board: &[u64],
    index: &[u64],
    floor: Floor,
    from: usize,
) -> NextOutcome
    ensures { NextLeft board.now index.now floor from result }
{
    floor::desk_next_occupied(board, index, floor, from)
}
