// Records out of the lent list and back into it. Past its end there is nothing: a blank is read, and nothing is written.
ghost use Rattle.std.specs.Prelude.{◌≡◌, get_or, set, length};
ghost use Rattle.turn.specs.Turn.{after, answer_of};
ghost use Rattle.engine.specs.Calls.{blank, record_in, asked_call};
ghost use Rattle.engine.specs.Promises.{StartDone};
ghost use Rattle.engine.specs.Move.{rest_number};
ghost use Rattle.engine.specs.Firsts.{firsts};
ghost use Rattle.hall.specs.Calls.{index_left};
ghost use Rattle.floor.specs.Lent.{beside, Lapped};
ghost use Rattle.floor.specs.Acted.{Acted, Began, Beginning};
ghost use Rattle.floor.specs.Calls.{on_list, said_as, step_in, say_in};

use engine::{Asked, Begun, Floor, Seat};
use turn::refusal::Refusal;
use turn::{Report, Worker, sleep};

// A turn that is done: the place that it was tried at, and its report.
#[derive(Clone, Copy, Debug, PartialEq, Eq, Hash)]
pub struct Done {
    pub report: Report,
    pub place: u8,
}

// §14.8: a record out of the list.
pub fn take_at(records: &[Worker], worker: usize) -> Worker
    ensures { result ≡ get_or records.now worker blank }
{
    records.get(worker).copied().unwrap_or(engine::blank())
}

// §14.8: a record back into it. By its number: through `get_mut` nothing ties the list to what is written.
pub fn put_at(records: &mut [Worker], worker: usize, w: Worker)
    ensures { records.new ≡ set records.old worker w }
{
    if worker < records.len() {
        records[worker] = w;
    }
}

// §6.3, §6.12: the number that the records of the list give a move, or 0: a number, since a move takes whichever it is given (`RestTested`).
pub fn rest_refusal(records: &[Worker]) -> u8
    ensures { result ≡ rest_number records.now }
{
    let mut number = 0;
    for &w in records {
        number = engine::rest_refusal(number, w);
    }
    number
}

// §20.2: what a turn of a worker makes of the record at a number, which may be its own.
fn beside(worker: usize, at: usize, w: Worker) -> Worker
    ensures { result ≡ beside worker at w }
{
    if at == worker {
        return w;
    }
    sleep::slept(w)
}

// §2.10, §20.2: all records in place, whatever the leaf makes of each by its number.
#[inline(always)]
pub fn lap<F: Fn(usize, Worker) -> Worker>(records: &mut [Worker], leaf: F)
    requires { F.IsAlwaysCallable leaf }
    ensures { Lapped (F.post leaf) records.old records.new }
{
    for (at, record) in records.iter_mut().enumerate() {
        *record = leaf(at, *record);
    }
}

// §20.2: all records are left so.
fn sleep_beside(records: &mut [Worker], worker: usize)
    ensures { records.new ≡ firsts (beside worker) (length records.old) records.old }
{
    lap(records, |at, w| beside(worker, at, w));
}

// §14.8: an act of one worker of the list, whatever its core: the worker's record is taken out, the core goes on with it in the worker's
// seat, and what it makes of the record is put back. Where the core refuses, the list stays.
#[inline(always)]
pub fn act<
    T: Drop,
    F: FnOnce(&mut [u64], &mut [u64], Seat, Worker) -> Result<(Worker, T), Refusal>,
>(
    board: &mut [u64],
    records: &mut [Worker],
    index: &mut [u64],
    floor: Floor,
    worker: usize,
    core: F,
) -> Result<T, Refusal>
    requires { F.IsAlwaysCallable core }
    ensures { Acted (F.post core) board.old records.old index.old floor worker board.new records.new index.new result }
{
    let seat = Seat {
        floor,
        listed: records.len(),
        worker,
    };
    let (left, told) = core(board, index, seat, take_at(records, worker))?;
    put_at(records, worker, left);
    Ok(told)
}

// §3.4: what begins on a worker: what it brings, and how the record in the worker's seat goes on from there.
pub trait Begins {
    ghost begins: { Self → Beginning };

    fn begin(self, board: &[u64], seat: Seat, w: Worker) -> Result<Begun, Refusal>
        ensures { begins self board.now seat w result };
}

impl Begins for Asked {
    ghost begins = { λ asked board seat w begun. StartDone asked_call board seat w asked begun };

    #[inline(always)]
    fn begin(self, board: &[u64], seat: Seat, w: Worker) -> Result<Begun, Refusal> {
        engine::start(board, seat, w, self)
    }
}

// §14.8, §3.4: such an act on a board that is lent to read, whatever begins: what is handed on is the floor after it.
#[inline(always)]
pub fn begin_at<B: Begins>(
    board: &[u64],
    records: &mut [Worker],
    floor: Floor,
    worker: usize,
    what: B,
) -> Result<Floor, Refusal>
    ensures { Began (B.begins what) board.now records.old floor worker records.new result }
{
    let seat = Seat {
        floor,
        listed: records.len(),
        worker,
    };
    let begun = what.begin(board, seat, take_at(records, worker))?;
    put_at(records, worker, begun.worker);
    Ok(begun.floor)
}

// §14.8: one step of a worker of the list: its record is taken out, has its turn, and is put back.
fn step_at(
    board: &mut [u64],
    records: &mut [Worker],
    index: &mut [u64],
    floor: Floor,
    worker: usize,
) -> Result<Done, Refusal>
    ensures { (after board.new (on_list records.new (said_as (record_in records.old worker).place result)) ≡ step_in board.old records.old index.old floor worker)
        × (index.new ≡ index_left index.old (answer_of (said_as (record_in records.old worker).place result))) }
{
    act(
        board,
        records,
        index,
        floor,
        worker,
        |board, index, seat, w| {
            let done = hall::try_turn(board, index, seat, w)?;
            let told = Done {
                report: done.report,
                place: w.place,
            };
            Ok((done.worker, told))
        },
    )
}

// §4.1, §20.2: one turn of a worker of the list, through which the others that are busy sleep.
pub fn turn_at(
    board: &mut [u64],
    records: &mut [Worker],
    index: &mut [u64],
    floor: Floor,
    worker: usize,
) -> Result<Done, Refusal>
    ensures { (after board.new (on_list records.new (said_as (record_in records.old worker).place result)) ≡ say_in board.old records.old index.old floor worker)
        × (index.new ≡ index_left index.old (answer_of (said_as (record_in records.old worker).place result))) }
{
    let done = step_at(board, records, index, floor, worker)?;
    sleep_beside(records, worker);
    Ok(done)
}
