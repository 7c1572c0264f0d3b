// The lots' places on a second board: found first, with nothing written, and then filled. The sizes of both boards are asked of the caller,
// `move_lots`, which tests them once.
ghost use Rattle.std.specs.Prelude.{◌≡◌, ◌||◌, ◌+◌, ◌*◌, ◌≤◌, length, replicate};
ghost use Rattle.turn.specs.Number.{result_number};
ghost use Rattle.engine.specs.Board.{opened_board};
ghost use Rattle.engine.specs.Move.{unsettled, room_number, lines_on, placed_all};
ghost use Rattle.engine.specs.Seating.{seats, no_lot, lot_word, lot_words_in, lot_words_on, Seated, Seatable, Fillable, SeatsMore, taken, put_from, filled_from};

use crate::{lay, lots};
use turn::bucket;
use turn::refusal::Refusal;

// How many slots the largest board has.
pub const SEATS: usize = 768;

// The word that stands for a slot that is still free: it is a ticket's, and so no lot's. No Option for each of 768 slots (decision 186).
pub const FREE: u16 = 4;

// §6.7: whether a bucket is broken, or has a slot that is being inserted. Eight words are asked here and below, since a bucket is a part of
// the lent board.
fn is_unsettled(lent: &[u64]) -> bool
    requires { length lent.now ≡ 8 }
    ensures { result ≡ unsettled lent.now }
{
    let word = lent[0];
    bucket::is_broken(lent)
        || mark::mark_of(word, 0) == mark::BEING_INSERTED
        || mark::mark_of(word, 1) == mark::BEING_INSERTED
        || mark::mark_of(word, 2) == mark::BEING_INSERTED
}

// How many of the three slots that begin here are taken, up to the first that is free.
fn taken(from: &[u16; SEATS], at: usize) -> usize
    requires { at + 3 ≤ seats }
    ensures { (result ≡ taken from.now at) × (result ≤ 3) }
{
    if from[at] == FREE {
        0
    } else if from[at + 1] == FREE {
        1
    } else if from[at + 2] == FREE {
        2
    } else {
        3
    }
}

// §22.2: the lot of a slot, if it is valid, has the first free slot of its new bucket; whether it lacks one.
fn seat_slot(old: &[u64], from: &mut [u16; SEATS], buckets: usize, b: usize, slot: u8) -> bool
    requires { Seatable old.now from.old buckets b × (slot ≤ 2) }
    ensures { SeatsMore old.now buckets (lot_word old.now b slot) from.old from.new result }
{
    if mark::mark_of(old[8 * b], slot) != mark::VALID {
        return false;
    }
    let word = 8 * b + 1 + usize::from(slot);
    let at = 3 * lots::bucket_of(old[word], buckets);
    let k = taken(from, at);
    if k == 3 {
        return true;
    }
    from[at + k] = word as u16;
    false
}

// §22.2: so of each slot of a bucket, one after another.
fn seat_bucket(old: &[u64], from: &mut [u16; SEATS], buckets: usize, b: usize) -> bool
    requires { Seatable old.now from.old buckets b }
    ensures { SeatsMore old.now buckets (lot_words_in old.now b) from.old from.new result }
{
    let first = seat_slot(old, from, buckets, b, 0);
    let second = seat_slot(old, from, buckets, b, 1);
    let third = seat_slot(old, from, buckets, b, 2);
    first | second | third
}

// §6.7, §6.13, §22.2: so of each bucket; why that refuses the move, if it does. A bucket that is not settled comes before one that is crowded,
// wherever it stands, so that all of them are gone over.
pub fn seat_all(
    old: &[u64],
    from: &mut [u16; SEATS],
    olds: usize,
    buckets: usize,
) -> Result<(), Refusal>
    requires { ((olds ≤ 256) × (length old.now ≡ 8 * olds)) × (((1 ≤ buckets) × (buckets ≤ 256)) × (from.old ≡ replicate seats no_lot)) }
    ensures { (result_number result ≡ room_number old.now olds buckets) × (result_number result ≡ 0 → Seated old.now buckets (lot_words_on old.now olds) from.new) }
{
    let mut crowded = false;
    for b in 0..olds {
        let at = 8 * b;
        if is_unsettled(&old[at..at + 8]) {
            return Err(Refusal::BrokenBucket);
        }
        crowded |= seat_bucket(old, from, buckets, b);
    }
    if crowded {
        return Err(Refusal::CrowdedBucket);
    }
    Ok(())
}

// §22.2: a slot becomes valid with the lot and the ticket at a word of the old board, if there is one.
fn put(bucket: &mut [u64], old: &[u64], slot: u8, word: u16)
    requires { (length bucket.old ≡ 8) × ((slot ≤ 2) × (word + 4 ≤ length old.now)) }
    ensures { bucket.new ≡ put_from old.now bucket.old slot word }
{
    if word == FREE {
        return;
    }
    let at = usize::from(word);
    bucket[0] = mark::with_mark(bucket[0], slot, mark::VALID);
    bucket[1 + usize::from(slot)] = old[at];
    bucket[4 + usize::from(slot)] = old[at + 3];
}

// §22.3: a bucket of the new board, with the lots at these words of the old one.
fn fill(bucket: &mut [u64], old: &[u64], version: u32, one: u16, two: u16, three: u16)
    requires { (length bucket.old ≡ 8) × ((one + 4 ≤ length old.now) × ((two + 4 ≤ length old.now) × (three + 4 ≤ length old.now))) }
    ensures { bucket.new ≡ filled_from old.now version one two three }
{
    lay::clear(bucket, version);
    put(bucket, old, 0, one);
    put(bucket, old, 1, two);
    put(bucket, old, 2, three);
}

// §22.3: every bucket of the new board so.
pub fn lay_all(
    old: &[u64],
    board: &mut [u64],
    from: &[u16; SEATS],
    olds: usize,
    buckets: usize,
    version: u32,
)
    requires { Fillable old.now board.old from.now olds buckets }
    ensures { board.new ≡ placed_all buckets (opened_board buckets version) (lines_on old.now olds) }
{
    for b in 0..buckets {
        let at = 8 * b;
        let seat = 3 * b;
        fill(
            &mut board[at..at + 8],
            old,
            version,
            from[seat],
            from[seat + 1],
            from[seat + 2],
        );
    }
}
