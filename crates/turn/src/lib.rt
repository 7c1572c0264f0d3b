// One worker and one bucket: the worker's record, the eight words of its lot's bucket, and what one turn does to them.
#![tactic(auto)]

ghost use Rattle.std.specs.Prelude.{◌≡◌};
ghost use Rattle.turn.specs.Number.{result_number};
ghost use Rattle.turn.specs.Turn.{bucket_refusal, busy_refusal, turn_refusal, after, no_report, reported, tried_as, try_turn};

use refusal::Refusal;

pub mod refusal; // why a call is refused
pub mod record; // idle, started and broken records
pub mod sleep; // the turns of others that a worker sleeps through
pub mod bucket; // broken buckets
pub mod retire; // a worker that will not return
mod place; // the place table

// §3.2: what a worker is at. Widest fields first, and they fill it: no byte of it is left to chance.
#[repr(C)]
#[derive(Clone, Copy, Debug, PartialEq, Eq, Hash)]
pub struct Worker {
    pub key: u64,
    pub word: u64,
    pub seen: u64,
    pub ticket: u64,
    pub asleep: u32,
    pub slot: u8,
    pub kind: u8,
    pub place: u8,
    pub held: u8,
}

// §4.8, §14.3: the one memory action of a turn; of a swap, whether it was won.
#[derive(Clone, Copy, Debug, PartialEq, Eq, Hash)]
pub enum Action {
    Read,
    Store,
    Won,
    Lost,
}

// §4.8, §14.3: where the call stands after a turn; one that has ended has its answer here. An enum with these words and no Option: §14.3 asks
// for it.
#[derive(Clone, Copy, Debug, PartialEq, Eq, Hash)]
pub enum Progress {
    GoesOn,
    Ended(u64),
}

// §4.8, §4.12, §14.3: what a turn reports: how it came out, and of its bucket the number, and the mark word before the turn and after it. The
// two words stand apart, as they are written one by one and would be copied as a pair.
#[derive(Clone, Copy, Debug, PartialEq, Eq, Hash)]
pub struct Report {
    pub bucket: usize,
    pub before: u64,
    pub progress: Progress,
    pub after: u64,
    pub action: Action,
    pub full: bool,
}

// What a step leaves of the worker, and how it came out.
#[derive(Clone, Copy, Debug, PartialEq, Eq, Hash)]
pub struct Stepped {
    pub worker: Worker,
    pub progress: Progress,
    pub action: Action,
    pub full: bool,
}

// What a turn that is done leaves of the worker, and its report.
#[derive(Clone, Copy, Debug, PartialEq, Eq, Hash)]
pub struct TurnDone {
    pub worker: Worker,
    pub report: Report,
}

// §6.3, §6.6: why a turn or a retiring of a worker is refused for its record, if it is. A sound record is not idle, so the test that nearly
// every turn passes comes first.
fn busy_refusal(w: Worker) -> Result<(), Refusal>
    ensures { result_number result ≡ busy_refusal w 0 }
{
    if record::is_sound(w) {
        Ok(())
    } else if record::is_idle(w) {
        Err(Refusal::IdleWorker)
    } else {
        Err(Refusal::BrokenRecord)
    }
}

// §6.7: a broken bucket.
fn bucket_refusal(lent: &[u64]) -> Result<(), Refusal>
    ensures { result_number result ≡ bucket_refusal lent.now }
{
    if bucket::is_broken(lent) {
        return Err(Refusal::BrokenBucket);
    }
    Ok(())
}

// §7.2: why a turn is refused, if it is.
pub fn turn_refusal(lent: &[u64], w: Worker) -> Result<(), Refusal>
    ensures { result_number result ≡ turn_refusal lent.now w }
{
    busy_refusal(w)?;
    bucket_refusal(lent)
}

// §4.13: the report of none, where no turn was done. Reports are made here and in `reported`, and nowhere else.
pub fn no_report() -> Report
    ensures { result ≡ no_report }
{
    Report {
        bucket: 0,
        before: 0,
        progress: Progress::GoesOn,
        after: 0,
        action: Action::Read,
        full: false,
    }
}

// §4.8, §4.12: the report of a step in the bucket of this number, with the mark words that it found and left there.
fn reported(stepped: Stepped, bucket: usize, before: u64, after: u64) -> Report
    ensures { result ≡ reported stepped bucket before after }
{
    Report {
        bucket,
        before,
        progress: stepped.progress,
        after,
        action: stepped.action,
        full: stepped.full,
    }
}

// §4.1: one turn of a worker on the bucket of its lot, which has this number.
pub fn try_turn(lent: &mut [u64], bucket: usize, w: Worker) -> Result<TurnDone, Refusal>
    ensures { after lent.new (tried_as w result) ≡ try_turn bucket lent.old w }
{
    turn_refusal(lent, w)?;
    let before = lent[0];
    let stepped = place::step(lent, sleep::awake(w));
    let report = reported(stepped, bucket, before, lent[0]);
    Ok(TurnDone {
        worker: stepped.worker,
        report,
    })
}
