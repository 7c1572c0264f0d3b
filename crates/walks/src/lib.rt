// Every order of the turns of a small class, walked: one bucket, and up to three workers.
#![tactic(auto)]

ghost use Rattle.walks.specs.Promises.{OrdersWalked, OrdersLeft};

use engine::Floor;
use turn::Worker;
use turn::refusal::Refusal;

mod walk; // the recursion
mod small; // whether a class is small, and whole
mod told; // the answer that crosses to C

// §18.4: the walks that finished, those that were cut, the swaps that were lost in all of them, and the most that were lost in one.
#[derive(Clone, Copy, Debug, PartialEq, Eq, Hash)]
pub struct Walks {
    pub finished: u64,
    pub cut: u64,
    pub lost: u64,
    pub most: u64,
}

// The first three records of a list, and how many the list has; those past its end are not looked at.
#[derive(Clone, Copy, Debug, PartialEq, Eq, Hash)]
pub struct Class {
    pub first: Worker,
    pub second: Worker,
    pub third: Worker,
    pub listed: usize,
}

// §18.4: the counts over all walks, and the number of refusal, or 0: for C, as floor's.
#[repr(C)]
#[derive(Clone, Copy, Debug, PartialEq, Eq, Hash)]
pub struct OrdersOutcome {
    pub finished: u64,
    pub cut: u64,
    pub lost: u64,
    pub most: u64,
    pub refusal: u8,
}

// §1.1, §18.3: walks every order of turns to a depth. What is lent stays as it is.
pub fn all_orders(board: &[u64], floor: Floor, class: Class, depth: usize) -> Result<Walks, Refusal>
    ensures { OrdersWalked board.now floor class depth result }
{
    let listed = class.listed;
    small::size_refusal(board, floor, listed, depth)?;
    let first = class.first;
    let second = small::seated(class.second, 1, listed);
    let third = small::seated(class.third, 2, listed);
    small::class_refusal(board, first, second, third)?;
    let words = small::words_of(board);
    Ok(walk::all(depth, words, first, second, third))
}

// §1.1, §18.3, §14.8: so over the lent list.
pub fn desk_orders(board: &[u64], records: &[Worker], floor: Floor, depth: usize) -> OrdersOutcome
    ensures { OrdersLeft board.now records.now floor depth result }
{
    let class = Class {
        first: floor::take_at(records, 0),
        second: floor::take_at(records, 1),
        third: floor::take_at(records, 2),
        listed: records.len(),
    };
    told::orders(all_orders(board, floor, class, depth))
}
