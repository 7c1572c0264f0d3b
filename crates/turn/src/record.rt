// The records of idle and started workers, and whether a record is broken. Kinds are numbers and no enum, since any byte may stand in a record
// that C lends (`Worker`).
#![tactic(auto, unfolding(crate::specs::Worker::fits, crate::specs::Worker::may_stand, crate::specs::Worker::ticket_fits, crate::specs::Worker::held_fits, crate::specs::Worker::word_fits))]

ghost use Rattle.std.specs.Prelude.{◌≡◌, ◌||◌, eqb};
ghost use Rattle.turn.specs.Worker.{idle, started, look_for, insert_of, remove_of, is_idle, within, held_fits, fits, sound};

use crate::Worker;

// §3.2: at no call.
pub const IDLE: u8 = 0;

// §3.2: a look.
pub const LOOK: u8 = 1;

// §3.2: an insert.
pub const INSERT: u8 = 2;

// §3.2: a remove.
pub const REMOVE: u8 = 3;

// §3.3: the record of an idle worker.
pub fn idle() -> Worker
    ensures { result ≡ idle }
{
    started(IDLE, 0, 0, 0)
}

// §3.4: the record of a look that starts.
pub fn look_for(lot: u64) -> Worker
    ensures { result ≡ look_for lot }
{
    started(LOOK, 2, lot, 0)
}

// §3.4: the record of an insert that starts.
pub fn insert_of(lot: u64, ticket: u64) -> Worker
    ensures { result ≡ insert_of lot ticket }
{
    started(INSERT, 1, lot, ticket)
}

// §3.4: the record of a remove that starts.
pub fn remove_of(lot: u64) -> Worker
    ensures { result ≡ remove_of lot }
{
    started(REMOVE, 1, lot, 0)
}

// §3.4: the one place of this crate where a record is written out.
fn started(kind: u8, place: u8, lot: u64, ticket: u64) -> Worker
    ensures { result ≡ started kind place lot ticket }
{
    Worker {
        kind,
        place,
        key: lot,
        ticket,
        slot: 0,
        word: 0,
        held: mark::NO_SLOT,
        seen: 0,
        asleep: 0,
    }
}

// §3.3: whether a worker is idle.
pub fn is_idle(w: Worker) -> bool
    ensures { result ≡ is_idle w }
{
    w == idle()
}

// §3.7, §14.1: where a look may stand.
fn look_stands(place: u8) -> bool
    ensures { result ≡ within 2 5 place }
{
    matches!(place, 2..=5)
}

// §3.7, §14.1: where an insert may stand.
fn insert_stands(place: u8) -> bool
    ensures { result ≡ within 1 10 place }
{
    matches!(place, 1..=10)
}

// §3.7, §14.1: where a remove may stand.
fn remove_stands(place: u8) -> bool
    ensures { result ≡ (eqb place 1 || within 11 13 place) }
{
    matches!(place, 1 | 11..=13)
}

// §3.7: an insert holds no slot when it is about to claim one, a slot from then on until it is done, and while it looks it may hold one from
// an earlier try.
fn insert_holds(place: u8, held: u8) -> bool
    ensures { result ≡ held_fits 2 place held }
{
    if place == 6 {
        return held == mark::NO_SLOT;
    }
    if 7 <= place {
        return held <= 2;
    }
    held <= mark::NO_SLOT
}

// §3.7: what a look asks of a busy record, beside its slot.
fn look_fits(place: u8, ticket: u64, held: u8, word: u64) -> bool
    ensures { result ≡ fits 1 place ticket held word }
{
    look_stands(place) && ticket == 0 && held == mark::NO_SLOT && word == 0
}

// §3.7: what an insert asks of a busy record, beside its slot.
fn insert_fits(place: u8, ticket: u64, held: u8, word: u64) -> bool
    ensures { result ≡ fits 2 place ticket held word }
{
    insert_stands(place) && ticket >= 1 && insert_holds(place, held) && mark::is_well_formed(word)
}

// §3.7: what a remove asks of a busy record, beside its slot.
fn remove_fits(place: u8, ticket: u64, held: u8, word: u64) -> bool
    ensures { result ≡ fits 3 place ticket held word }
{
    remove_stands(place) && ticket == 0 && held == mark::NO_SLOT && mark::is_well_formed(word)
}

// §3.7: whether the fields of a busy record go together: by its kind, so that each is tested once.
pub fn is_sound(w: Worker) -> bool
    ensures { result ≡ sound w }
{
    if w.slot > 2 {
        return false;
    }
    if w.kind == INSERT {
        return insert_fits(w.place, w.ticket, w.held, w.word);
    }
    if w.kind == LOOK {
        return look_fits(w.place, w.ticket, w.held, w.word);
    }
    if w.kind == REMOVE {
        return remove_fits(w.place, w.ticket, w.held, w.word);
    }
    false
}
