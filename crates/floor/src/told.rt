// What the calls of the engine and the hall hand back, as it goes out to C.
ghost use Rattle.std.specs.Prelude.{◌≡◌};
ghost use Rattle.engine.specs.Calls.{counted_as};
ghost use Rattle.hall.specs.Totalled.{totalled_as};
ghost use Rattle.hall.specs.Next.{next_as};
ghost use Rattle.floor.specs.Calls.{answered_as};
ghost use Rattle.floor.specs.Told.{action_number, is_ended, ended_with, report_told, turn_told, run_told, count_told, total_told, next_told};

use crate::list::Done;
use crate::{CountOutcome, NextOutcome, ReportOutcome, RunOutcome, TotalOutcome, TurnOutcome};
use engine::Totals;
use turn::refusal::Refusal;
use turn::{Action, Progress, Report};

// §14.9: the number of an action, as C is told it.
fn action(a: Action) -> u8
    ensures { result ≡ action_number a }
{
    match a {
        Action::Read => 1,
        Action::Store => 2,
        Action::Won => 3,
        Action::Lost => 4,
    }
}

// §14.9: whether a call has ended.
fn is_ended(p: Progress) -> bool
    ensures { result ≡ is_ended p }
{
    matches!(p, Progress::Ended(_))
}

// §14.9: the answer of a call that has ended; 0 where it goes on.
fn ended_with(p: Progress) -> u64
    ensures { result ≡ ended_with p }
{
    match p {
        Progress::GoesOn => 0,
        Progress::Ended(answer) => answer,
    }
}

// §14.9: a report.
fn report(r: Report) -> ReportOutcome
    ensures { result ≡ report_told r }
{
    ReportOutcome {
        answer: ended_with(r.progress),
        before: r.before,
        after: r.after,
        bucket: r.bucket,
        action: action(r.action),
        ended: is_ended(r.progress),
        full: r.full,
    }
}

// §7.1, §14.9: a turn's answer.
pub fn turn(answer: Result<Done, Refusal>) -> TurnOutcome
    ensures { result ≡ turn_told (answered_as answer) }
{
    match answer {
        Ok(done) => TurnOutcome {
            report: report(done.report),
            refusal: 0,
        },
        Err(why) => TurnOutcome {
            report: ReportOutcome {
                answer: 0,
                before: 0,
                after: 0,
                bucket: 0,
                action: 0,
                ended: false,
                full: false,
            },
            refusal: why.into(),
        },
    }
}

// §4.10: a run's.
pub fn run(last: Report, totals: Totals, stop: u8) -> RunOutcome
    ensures { result ≡ run_told last totals stop }
{
    RunOutcome {
        last: report(last),
        totals,
        stop,
    }
}

// §14.9: a count's.
pub fn count(answer: Result<usize, Refusal>) -> CountOutcome
    ensures { result ≡ count_told (counted_as answer) }
{
    match answer {
        Ok(lots) => CountOutcome { lots, refusal: 0 },
        Err(why) => CountOutcome {
            lots: 0,
            refusal: why.into(),
        },
    }
}

// §14.9, §21.3: a total's.
pub fn total(answer: Result<u64, Refusal>) -> TotalOutcome
    ensures { result ≡ total_told (totalled_as answer) }
{
    match answer {
        Ok(total) => TotalOutcome { total, refusal: 0 },
        Err(why) => TotalOutcome {
            total: 0,
            refusal: why.into(),
        },
    }
}

// §14.9, §21.4: a next bucket's.
pub fn next(answer: Result<Option<usize>, Refusal>) -> NextOutcome
    ensures { result ≡ next_told (next_as answer) }
{
    match answer {
        Ok(next) => NextOutcome {
            bucket: next.unwrap_or(0),
            found: next.is_some(),
            refusal: 0,
        },
        Err(why) => NextOutcome {
            bucket: 0,
            found: false,
            refusal: why.into(),
        },
    }
}
