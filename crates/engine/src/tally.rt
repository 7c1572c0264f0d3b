// What turns are counted by.
ghost use Rattle.std.specs.Prelude.{◌≡◌};
ghost use Rattle.engine.specs.Calls.{changes, losses};
ghost use Rattle.engine.specs.Promises.{NoneCounted, TurnCounted};

use crate::Totals;
use turn::{Action, Report, sleep};

// §4.10: no turn is counted yet.
pub fn nothing() -> Totals
    ensures { NoneCounted result }
{
    Totals {
        turns: 0,
        changes: 0,
        lost: 0,
        full: 0,
    }
}

// §4.9: 1 for a change, else 0.
pub fn changes(place: u8, action: Action) -> u32
    ensures { result ≡ changes place action }
{
    match action {
        Action::Read => 0,
        // one store is a change: that at place 10
        Action::Store => (place == 10) as u32,
        Action::Won => 1,
        Action::Lost => 0,
    }
}

// §4.10: 1 for a lost swap, else 0: a number and no flag, as it is what is added up (`losses`).
pub fn losses(action: Action) -> u32
    ensures { result ≡ losses action }
{
    match action {
        Action::Read => 0,
        Action::Store => 0,
        Action::Won => 0,
        Action::Lost => 1,
    }
}

// §4.10: the totals with one turn more, done at a place.
pub fn add(totals: Totals, place: u8, report: Report) -> Totals
    ensures { TurnCounted totals place report result }
{
    let action = report.action;
    Totals {
        turns: sleep::more(totals.turns, 1),
        changes: sleep::more(totals.changes, changes(place, action)),
        lost: sleep::more(totals.lost, losses(action)),
        full: sleep::more(totals.full, report.full as u32),
    }
}
