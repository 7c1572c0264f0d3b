// All orders under the name that C calls it by (include/desk.h). A crate that others are built on is no static library, so this one stands over
// it: the export promises what the function of its name promises there (crates/walks/src/lib.rt), clause by clause.
#![tactic(auto)]

ghost use Rattle.walks.specs.Promises.{OrdersLeft};

use engine::Floor;
use turn::Worker;
use walks::OrdersOutcome;

// §1.1, §18.3, §14.8: walks every order of turns to a depth, over the lent list.
#[unsafe(no_mangle)]
pub extern "C" fn desk_orders(
    board: &[u64],
    records: &[Worker],
    floor: Floor,
    depth: usize,
) -> OrdersOutcome
    ensures { OrdersLeft board.now records.now floor depth result }
{
    walks::desk_orders(board, records, floor, depth)
}
