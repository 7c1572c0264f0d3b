// The recursion over the depth that is left.
ghost use Rattle.std.specs.Prelude.{◌≡◌, ◌+◌, ◌-◌, ◌≤◌};
ghost use Rattle.turn.specs.Worker.{is_idle};
ghost use Rattle.turn.specs.Asleep.{slept};
ghost use Rattle.turn.specs.Turn.{tried_as};
ghost use Rattle.engine.specs.Calls.{losses};
ghost use Rattle.walks.specs.Orders.{no_walks, one_walk, together};
ghost use Rattle.walks.specs.Walk.{three_idle, begun_by, begun, walks, Fit};

use crate::Walks;
use engine::tally;
use turn::refusal::Refusal;
use turn::{TurnDone, Worker, record, sleep};

// No walk at all.
fn none() -> Walks
    ensures { result ≡ no_walks }
{
    Walks {
        finished: 0,
        cut: 0,
        lost: 0,
        most: 0,
    }
}

// §18.2: one walk.
pub fn one(ended: bool, lost: u64) -> Walks
    ensures { result ≡ one_walk ended lost }
{
    Walks {
        finished: u64::from(ended),
        cut: u64::from(!ended),
        lost,
        most: lost,
    }
}

// §18.4: the counts of some walks and of some others.
pub fn sum(a: Walks, b: Walks) -> Walks
    requires { Fit a × Fit b }
    ensures { result ≡ together a b }
{
    Walks {
        finished: a.finished + b.finished,
        cut: a.cut + b.cut,
        lost: a.lost + b.lost,
        most: a.most.max(b.most),
    }
}

// Whose record is left after a turn: refused, a turn leaves its own. Both are built into their caller: a walk calls them at every node.
#[inline(always)]
fn left_by(own: Worker, answer: Result<TurnDone, Refusal>) -> Worker
    ensures { result ≡ (tried_as own answer).worker }
{
    match answer {
        Ok(done) => done.worker,
        Err(_) => own,
    }
}

// §4.10: 1 for a lost swap, else 0; refused, a turn loses none. `own` is for the promise, which is of the record that is left as well.
#[inline(always)]
fn lost_by(own: Worker, answer: Result<TurnDone, Refusal>) -> u64
    ensures { result ≡ losses (tried_as own answer).said.report.action }
{
    match answer {
        Ok(done) => tally::losses(done.report.action) as u64,
        Err(_) => 0,
    }
}

// §3.3: whether a worker is idle. This and `are_idle` are called and not built in: a walk asks them at every node, and most of those who are
// asked about are busy, which the kind alone tells. Built in, all fields would be read before the kind is tested.
#[inline(never)]
fn is_idle(w: Worker) -> bool
    ensures { result ≡ is_idle w }
{
    record::is_idle(w)
}

// §18.1: whether all three are idle.
#[inline(never)]
pub fn are_idle(a: Worker, b: Worker, c: Worker) -> bool
    ensures { result ≡ three_idle a b c }
{
    record::is_idle(a) && record::is_idle(b) && record::is_idle(c)
}

// §14.12, §18.3: the walks that begin with a turn of `own`: it has its turn, and where somebody is busy after that, and turns are left, they go
// on with a turn of each. Of who is idle there are none. The others sleep through the turn; a walk that ends with it need not count that. The
// three stand one by one, and in no array, since each turn passes them on in another order.
#[cycle(begun_by)]
pub fn begun_by(
    depth: usize,
    words: [u64; 8],
    own: Worker,
    next: Worker,
    last: Worker,
    lost: u64,
) -> Walks
    requires { lost + depth ≤ 23 }
    ensures { result ≡ begun_by (walks depth) words own next last lost }
{
    if own.kind == record::IDLE && is_idle(own) {
        return none();
    }
    let mut after = words;
    let answer = turn::try_turn(&mut after, 0, own);
    let left = left_by(own, answer);
    let so_far = lost + lost_by(own, answer);
    if left.kind == record::IDLE && are_idle(left, next, last) {
        return one(true, so_far);
    }
    if depth == 0 {
        return one(false, so_far);
    }
    going_on(depth, after, left, next, last, so_far)
}

// §18.3: the walks that go on after a turn, which has left the words `after` and the record `left`: the others have slept through it, and now
// each of the three has one. It stands apart from `begun_by`, since a walk that ends there, as two in three do, would make room for all of this.
#[cycle(begun_by)]
fn going_on(
    depth: usize,
    after: [u64; 8],
    left: Worker,
    next: Worker,
    last: Worker,
    so_far: u64,
) -> Walks
    requires { (1 ≤ depth) × (so_far + depth ≤ 24) }
    ensures { result ≡ begun (walks (depth - 1)) after left (slept next) (slept last) so_far }
{
    let next = sleep::slept(next);
    let last = sleep::slept(last);
    let first = begun_by(depth - 1, after, left, next, last, so_far);
    let second = begun_by(depth - 1, after, next, last, left, so_far);
    let third = begun_by(depth - 1, after, last, left, next, so_far);
    sum(sum(first, second), third)
}

// §18.3: all walks.
pub fn all(depth: usize, words: [u64; 8], a: Worker, b: Worker, c: Worker) -> Walks
    requires { (1 ≤ depth) × (depth ≤ 24) }
    ensures { result ≡ walks depth words a b c 0 }
{
    if are_idle(a, b, c) {
        return one(true, 0);
    }
    let first = begun_by(depth - 1, words, a, b, c, 0);
    let second = begun_by(depth - 1, words, b, c, a, 0);
    let third = begun_by(depth - 1, words, c, a, b, 0);
    sum(sum(first, second), third)
}
