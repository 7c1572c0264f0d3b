// The place table: one memory action a turn, and what follows it.
ghost use Rattle.std.specs.Prelude.{◌≡◌, false, ◌<◌, length};
ghost use Rattle.turn.specs.Worker.{go_to, at_slot, saw, claimed};
ghost use Rattle.turn.specs.Ready.{Ready};
ghost use Rattle.turn.specs.Places.{goes_on, ends, look_found, find_slot, look_empty, next_slot, after1, after3, after4, after5, next_key, after11, leaves, swapped, loses, turn};

use crate::{Action, Progress, Stepped, Worker, record};

// §4.8: the call goes on.
fn goes_on(action: Action, full: bool, worker: Worker) -> Stepped
    ensures { result ≡ goes_on action full worker }
{
    Stepped {
        worker,
        progress: Progress::GoesOn,
        action,
        full,
    }
}

// §4.3, §4.8: the call has ended.
fn ends(action: Action, answer: u64) -> Stepped
    ensures { result ≡ ends action answer }
{
    Stepped {
        worker: record::idle(),
        progress: Progress::Ended(answer),
        action,
        full: false,
    }
}

// At another place.
fn goes_to(action: Action, mut w: Worker, place: u8) -> Stepped
    ensures { result ≡ goes_on action false (go_to place w) }
{
    w.place = place;
    goes_on(action, false, w)
}

// After a read: at another place and slot; at another place, with what was seen.

fn read_to_slot(mut w: Worker, place: u8, slot: u8, full: bool) -> Stepped
    ensures { result ≡ goes_on Action.Read full (at_slot place slot w) }
{
    w.place = place;
    w.slot = slot;
    goes_on(Action::Read, full, w)
}

fn read_seen(mut w: Worker, place: u8, seen: u64) -> Stepped
    ensures { result ≡ goes_on Action.Read false (saw place seen w) }
{
    w.place = place;
    w.seen = seen;
    goes_on(Action::Read, false, w)
}

// §4.6: the search has found.
fn look_found(w: Worker) -> Stepped
    ensures { result ≡ look_found w }
{
    if w.kind == record::LOOK {
        return ends(Action::Read, w.seen);
    }
    if w.held == mark::NO_SLOT {
        return ends(Action::Read, 0);
    }
    goes_to(Action::Read, w, 10)
}

// §4.7: a slot to claim, or a full round.
fn find_slot(w: Worker) -> Stepped
    ensures { result ≡ find_slot w }
{
    match mark::first_empty(w.word) {
        Some(free) => read_to_slot(w, 6, free, false),
        None => read_to_slot(w, 1, 0, true),
    }
}

// §4.7: the search is empty.
fn look_empty(w: Worker) -> Stepped
    ensures { result ≡ look_empty w }
{
    if w.kind == record::LOOK {
        return ends(Action::Read, 0);
    }
    if w.held == mark::NO_SLOT {
        return find_slot(w);
    }
    goes_to(Action::Read, w, 9)
}

// §4.5: to the next slot.
fn next_slot(w: Worker) -> Stepped
    ensures { result ≡ next_slot w }
{
    if w.slot < 2 {
        return read_to_slot(w, 2, w.slot + 1, false);
    }
    look_empty(w)
}

// §5.1: what follows the reading of the whole word.
fn after_1(mut w: Worker, read: u64) -> Stepped
    ensures { result ≡ after1 w read }
{
    w.word = read;
    w.slot = 0;
    if w.kind == record::REMOVE {
        return goes_to(Action::Read, w, 11);
    }
    goes_to(Action::Read, w, 2)
}

// §5.3: what follows the reading of a mark.
fn after_3(w: Worker, read: u64) -> Stepped
    ensures { result ≡ after3 w read }
{
    if mark::mark_of(read, w.slot) == mark::VALID {
        return goes_to(Action::Read, w, 4);
    }
    next_slot(w)
}

// §5.4: what follows the reading of a key.
fn after_4(w: Worker, read: u64) -> Stepped
    ensures { result ≡ after4 w read }
{
    if read == w.key {
        return goes_to(Action::Read, w, 5);
    }
    next_slot(w)
}

// §5.5: what follows the second reading of a value.
fn after_5(w: Worker, read: u64) -> Stepped
    ensures { result ≡ after5 w read }
{
    if read != w.seen {
        return look_empty(w);
    }
    if read == 0 {
        return look_empty(w);
    }
    look_found(w)
}

// §5.11: to the next key.
fn next_key(w: Worker) -> Stepped
    ensures { result ≡ next_key w }
{
    if w.slot < 2 {
        return read_to_slot(w, 11, w.slot + 1, false);
    }
    ends(Action::Read, 0)
}

// §5.11: what follows the reading of a remove's key.
fn after_11(w: Worker, read: u64) -> Stepped
    ensures { result ≡ after11 w read }
{
    if read != w.key {
        return next_key(w);
    }
    if mark::mark_of(w.word, w.slot) == mark::VALID {
        return goes_to(Action::Read, w, 12);
    }
    next_key(w)
}

// §5.6: what follows a claim.
fn claimed(mut w: Worker, word: u64) -> Stepped
    ensures { result ≡ goes_on Action.Won false (claimed word w) }
{
    w.place = 7;
    w.word = word;
    w.held = w.slot;
    goes_on(Action::Won, false, w)
}

// §4.4: what follows a lost swap.
fn lost(w: Worker) -> Stepped
    ensures { result ≡ loses w }
{
    goes_to(Action::Lost, w, 1)
}

// §4.4: the mark word `new` for `expected`, and what follows a swap that is won or lost.
fn swap(bucket: &mut [u64], expected: u64, new: u64, won: Stepped, lost: Stepped) -> Stepped
    requires { 0 < length bucket.old }
    ensures { leaves bucket.new result ≡ swapped bucket.old expected new won lost }
{
    if bucket[0] == expected {
        bucket[0] = new;
        return won;
    }
    lost
}

// §4.1, §14.1: the place decides what a turn does, one memory action and what follows it. One match over the place's number, as §14.1 asks.
// No call is at place 0 or past 13: a turn there is refused before it comes here.
pub fn step(bucket: &mut [u64], w: Worker) -> Stepped
    requires { Ready bucket.old w }
    ensures { leaves bucket.new result ≡ turn bucket.old w }
{
    let place = w.place;
    let key = w.key;
    let ticket = w.ticket;
    let key_cell = 1 + w.slot as usize;
    let value_cell = 4 + w.slot as usize;
    let held_key = 1 + w.held as usize;
    let held_value = 4 + w.held as usize;
    match place {
        0 => goes_on(Action::Read, false, w),
        1 => after_1(w, bucket[0]),
        2 => read_seen(w, 3, bucket[value_cell]),
        3 => after_3(w, bucket[0]),
        4 => after_4(w, bucket[key_cell]),
        5 => after_5(w, bucket[value_cell]),
        6 => {
            let new = mark::with_mark(w.word, w.slot, mark::BEING_INSERTED);
            swap(bucket, w.word, new, claimed(w, new), lost(w))
        }
        7 => {
            bucket[held_value] = ticket;
            goes_to(Action::Store, w, 8)
        }
        8 => {
            bucket[held_key] = key;
            goes_to(Action::Store, w, 9)
        }
        9 => {
            let filled = mark::with_mark(w.word, w.held, mark::BEING_INSERTED);
            let new = mark::with_next_version(mark::with_mark(filled, w.held, mark::VALID));
            swap(bucket, filled, new, ends(Action::Won, 1), lost(w))
        }
        10 => {
            bucket[0] = mark::with_mark(bucket[0], w.held, mark::EMPTY);
            ends(Action::Store, 0)
        }
        11 => after_11(w, bucket[key_cell]),
        12 => read_seen(w, 13, bucket[value_cell]),
        13 => {
            let new = mark::with_mark(w.word, w.slot, mark::EMPTY);
            swap(bucket, w.word, new, ends(Action::Won, w.seen), lost(w))
        }
        14..=255 => goes_on(Action::Read, false, w),
    }
}
