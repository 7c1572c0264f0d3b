// A worker that will not return.
ghost use Rattle.std.specs.Prelude.{◌≡◌, length};
ghost use Rattle.turn.specs.Number.{result_number};
ghost use Rattle.turn.specs.Turn.{after};
ghost use Rattle.turn.specs.Retire.{held_refusal, retire_refusal, vacated, retired_as, retire_on};

use crate::refusal::Refusal;
use crate::{Worker, bucket_refusal, busy_refusal, record};

// §19.3: who holds no slot has no business with the bucket.
fn held_refusal(lent: &[u64], w: Worker) -> Result<(), Refusal>
    ensures { result_number result ≡ held_refusal lent.now w }
{
    if w.held == mark::NO_SLOT {
        return Ok(());
    }
    bucket_refusal(lent)
}

// §7.2: why a retiring is refused, if it is.
pub fn retire_refusal(lent: &[u64], w: Worker) -> Result<(), Refusal>
    ensures { result_number result ≡ retire_refusal lent.now w }
{
    busy_refusal(w)?;
    held_refusal(lent, w)
}

// §19.2: gives a held slot back: its mark and the version in one store. Eight words are asked only where a slot is held, as nothing else has
// tested the bucket.
fn vacate(lent: &mut [u64], w: Worker)
    requires { (w.held ≡ 3 → ⊥) → length lent.old ≡ 8 }
    ensures { lent.new ≡ vacated lent.old w }
{
    if w.held == mark::NO_SLOT {
        return;
    }
    lent[0] = mark::with_next_version(mark::with_mark(lent[0], w.held, mark::EMPTY));
}

// §19.1: retires a worker on the bucket of its lot, and hands back its record as it then stands.
pub fn on_bucket(lent: &mut [u64], w: Worker) -> Result<Worker, Refusal>
    ensures { after lent.new (retired_as w result) ≡ retire_on lent.old w }
{
    retire_refusal(lent, w)?;
    vacate(lent, w);
    Ok(record::idle())
}
