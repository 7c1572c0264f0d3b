// The calls of the desk that take the hall display's index: the engine's, which keep it true, and the display's two questions.
#![tactic(auto)]

ghost use Rattle.std.specs.Prelude.{◌≡◌};
ghost use Rattle.engine.specs.Room.{Right};
ghost use Rattle.hall.specs.Refusals.{untrue_if_held};
ghost use Rattle.hall.specs.Promises.{FloorKept, TurnKept, RetireKept, HallRunTested, MoveKept, TotalTold, NextTold};

use engine::{Floor, Moved, Plan, Seat};
use turn::refusal::Refusal;
use turn::{TurnDone, Worker};

mod display; // the five words

// §2.10, §21.2: opens a floor, and makes the index.
pub fn open_floor(
    board: &mut [u64],
    index: &mut [u64],
    floor: Floor,
    listed: usize,
    plan: Plan,
) -> Result<Floor, Refusal>
    ensures { FloorKept board.old index.old floor listed plan board.new index.new result }
{
    let Some(index) = index.as_mut_array() else {
        return Err(Refusal::WrongSizes);
    };
    let opened = engine::open_floor(board, floor, listed, plan)?;
    display::clear(index);
    Ok(opened)
}

// §4.1, §21.2, §6.11: one turn of one worker, given its record. The index is tested first, since nearly every turn passes: where it does not,
// the turn is refused, and another number may come before 11.
pub fn try_turn(
    board: &mut [u64],
    index: &mut [u64],
    seat: Seat,
    w: Worker,
) -> Result<TurnDone, Refusal>
    ensures { TurnKept board.old index.old seat w board.new index.new result }
{
    let Some(index) = index.as_mut_array() else {
        return Err(Refusal::WrongSizes);
    };
    let floor = seat.floor;
    engine::run_refusal(floor, board.len(), seat.listed, 0)?;
    if display::is_untrue_for(board, index, floor, w.key) {
        engine::turn_refusal(board, seat, w)?;
        return Err(Refusal::UntrueIndex);
    }
    let done = engine::try_turn(board, seat, w)?;
    let report = done.report;
    display::follow(index, report.bucket, report.before, report.after);
    Ok(done)
}

// §19.3: who holds no slot has no business with the bucket, and so none with what the index tells of it.
fn is_untrue_if_held(board: &[u64], index: &[u64; display::WORDS], floor: Floor, w: Worker) -> bool
    requires { Right floor board.now }
    ensures { result ≡ untrue_if_held floor board.now index.now w }
{
    w.held != mark::NO_SLOT && display::is_untrue_for(board, index, floor, w.key)
}

// §19.1, §21.2, §6.11: retires one worker, given its record.
pub fn retire(
    board: &mut [u64],
    index: &mut [u64],
    seat: Seat,
    w: Worker,
) -> Result<Worker, Refusal>
    ensures { RetireKept board.old index.old seat w board.new index.new result }
{
    let Some(index) = index.as_mut_array() else {
        return Err(Refusal::WrongSizes);
    };
    let floor = seat.floor;
    engine::run_refusal(floor, board.len(), seat.listed, 0)?;
    if is_untrue_if_held(board, index, floor, w) {
        engine::retire_refusal(board, seat, w)?;
        return Err(Refusal::UntrueIndex);
    }
    let before = engine::touched_by(board, floor, w.key);
    let retired = engine::retire(board, seat, w)?;
    let after = engine::touched_by(board, floor, w.key);
    display::follow(index, before.bucket, before.word, after.word);
    Ok(retired)
}

// §7.2: why a run is refused as a whole, if it is: on a board of so many words, with a list of so many records and an index of so many words, of
// so many turns. With no turn it is the test of the sizes alone.
pub fn run_refusal(
    floor: Floor,
    words: usize,
    listed: usize,
    entries: usize,
    count: usize,
) -> Result<(), Refusal>
    ensures { HallRunTested floor words listed entries count result }
{
    if entries != display::WORDS {
        return Err(Refusal::WrongSizes);
    }
    engine::run_refusal(floor, words, listed, count)
}

// §22.1, §22.4: moves the lots to another board, and makes the index afresh. The numbers are the engine's, and so is what is handed back.
pub fn move_lots(
    old: &[u64],
    board: &mut [u64],
    index: &mut [u64],
    floor: Floor,
    listed: usize,
    rest: u8,
    buckets: usize,
) -> Moved
    ensures { MoveKept old.now board.old index.old floor listed rest buckets board.new index.new result }
{
    let Some(index) = index.as_mut_array() else {
        return Moved {
            floor,
            refusal: Refusal::WrongSizes.into(),
        };
    };
    let moved = engine::move_lots(old, board, floor, listed, rest, buckets);
    if moved.refusal == 0 {
        display::make(index, board, buckets);
    }
    moved
}

// §21.3: the number of valid slots.
pub fn total(board: &[u64], index: &[u64], floor: Floor) -> Result<u64, Refusal>
    ensures { TotalTold board.now index.now floor result }
{
    run_refusal(floor, board.len(), floor.workers, index.len(), 0)?;
    Ok(index[0])
}

// §21.4: the first occupied bucket at or after one, if there is one.
pub fn next_occupied(
    board: &[u64],
    index: &[u64],
    floor: Floor,
    from: usize,
) -> Result<Option<usize>, Refusal>
    ensures { NextTold board.now index.now floor from result }
{
    let Ok(index) = <&[u64; display::WORDS]>::try_from(index) else {
        return Err(Refusal::WrongSizes);
    };
    engine::run_refusal(floor, board.len(), floor.workers, 0)?;
    Ok(display::next(index, floor.buckets, from))
}
