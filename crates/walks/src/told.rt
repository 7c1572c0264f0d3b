// What all orders hands back, as it goes out to C.
ghost use Rattle.std.specs.Prelude.{◌≡◌};
ghost use Rattle.walks.specs.Calls.{walked_as};
ghost use Rattle.walks.specs.Told.{orders_told};

use crate::{OrdersOutcome, Walks};
use turn::refusal::Refusal;

// §18.4, §14.9: what all orders answers; a refusal has its number, and no counts.
pub fn orders(answer: Result<Walks, Refusal>) -> OrdersOutcome
    ensures { result ≡ orders_told (walked_as answer) }
{
    match answer {
        Ok(walks) => OrdersOutcome {
            finished: walks.finished,
            cut: walks.cut,
            lost: walks.lost,
            most: walks.most,
            refusal: 0,
        },
        Err(why) => OrdersOutcome {
            finished: 0,
            cut: 0,
            lost: 0,
            most: 0,
            refusal: why.into(),
        },
    }
}
