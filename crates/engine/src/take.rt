// A turn and a retiring on the board, where floor and board fit together.
ghost use Rattle.std.specs.Prelude.{◌≡◌};
ghost use Rattle.turn.specs.Number.{result_number};
ghost use Rattle.turn.specs.Turn.{after, turn_refusal, tried_as};
ghost use Rattle.turn.specs.Retire.{retire_refusal, retired_as};
ghost use Rattle.engine.specs.Refusals.{bucket_for};
ghost use Rattle.engine.specs.Room.{Right};
ghost use Rattle.engine.specs.Calls.{tried, retired};

use crate::{Floor, lots};
use turn::refusal::Refusal;
use turn::{TurnDone, Worker};

// §2.4, §4.1: the worker's turn on the bucket of its lot.
pub fn turn(board: &mut [u64], floor: Floor, w: Worker) -> Result<TurnDone, Refusal>
    requires { Right floor board.old }
    ensures { after board.new (tried_as w result) ≡ tried (turn_refusal (bucket_for floor board.old w.key) w) floor board.old w }
{
    let bucket = lots::bucket_of(w.key, floor.buckets);
    let at = 8 * bucket;
    turn::try_turn(&mut board[at..at + 8], bucket, w)
}

// §2.4, §19.1: retires the worker on the bucket of its lot.
pub fn retired(board: &mut [u64], floor: Floor, w: Worker) -> Result<Worker, Refusal>
    requires { Right floor board.old }
    ensures { after board.new (retired_as w result) ≡ retired (retire_refusal (bucket_for floor board.old w.key) w) floor board.old w }
{
    let at = lots::first_word(w.key, floor.buckets);
    turn::retire::on_bucket(&mut board[at..at + 8], w)
}

// §2.4, §7.2: why such a turn is refused, if it is.
pub fn turn_refusal(board: &[u64], floor: Floor, w: Worker) -> Result<(), Refusal>
    requires { Right floor board.now }
    ensures { result_number result ≡ turn_refusal (bucket_for floor board.now w.key) w }
{
    let at = lots::first_word(w.key, floor.buckets);
    turn::turn_refusal(&board[at..at + 8], w)
}

// §2.4, §7.2: why such a retiring is refused, if it is.
pub fn retire_refusal(board: &[u64], floor: Floor, w: Worker) -> Result<(), Refusal>
    requires { Right floor board.now }
    ensures { result_number result ≡ retire_refusal (bucket_for floor board.now w.key) w }
{
    let at = lots::first_word(w.key, floor.buckets);
    turn::retire::retire_refusal(&board[at..at + 8], w)
}
