// The turns of others that a worker sleeps through.
ghost use Rattle.std.specs.Prelude.{◌≡◌, ◌+◌};
ghost use Rattle.turn.specs.Asleep.{capped, awake, slept};

use crate::{Worker, record};

// §20.1: a count with some more; at the highest number it stays.
pub fn more(count: u32, some: u32) -> u32
    ensures { result ≡ capped (count + some) }
{
    count.saturating_add(some)
}

// §20.2: the record of whoever has a turn.
pub fn awake(mut w: Worker) -> Worker
    ensures { result ≡ awake w }
{
    w.asleep = 0;
    w
}

// §20.2: the record after a turn of another.
pub fn slept(mut w: Worker) -> Worker
    ensures { result ≡ slept w }
{
    if record::is_sound(w) {
        w.asleep = more(w.asleep, 1);
    }
    w
}
