// What a stage keeps: the records, who has changed a mark word last, and the last scene.
#![tactic(auto)]

ghost use Rattle.std.specs.Prelude.{◌≡◌, map, get_or, set};
ghost use Rattle.turn.specs.Asleep.{slept};
ghost use Rattle.turn.specs.Number.{number};
ghost use Rattle.engine.specs.Calls.{record_in};
ghost use Rattle.view.specs.Stage.{unchanged, shut, last_scene, stopped, ended, noted};

use crate::{Change, Cursor, Scene, Stage, Stop};
use engine::{Floor, tally};
use turn::refusal::Refusal;
use turn::{Worker, record, sleep};

// Nobody has changed a mark word.
const UNCHANGED: Change = Change { turn: 0, worker: 0 };

impl Stage {
    // Before any field of the sheet.
    pub(crate) fn shut() -> Stage
        ensures { result ≡ shut }
    {
        Stage {
            records: [record::idle(); 64],
            changes: [UNCHANGED; 256],
            floor: Floor {
                workers: 0,
                buckets: 0,
                last: 0,
                version: 0,
                spare: 0,
            },
            totals: tally::nothing(),
            cursor: Cursor {
                field: 0,
                at: 0,
                turn: 0,
                end: 0,
                over: false,
            },
            scene: Scene::Nothing,
        }
    }

    // ---- records and changes

    // A worker's record, and a blank for a number that has none.
    pub(crate) fn record_of(&self, worker: u8) -> Worker
        ensures { result ≡ record_in self.now.records worker }
    {
        self.records
            .get(usize::from(worker))
            .copied()
            .unwrap_or(engine::blank())
    }

    // §20.2: every record through a turn.
    #[tactic(auto, using(engine::proofs::Firsts::firsts_none))]
    pub(crate) fn sleep(&mut self)
        ensures { self.new ≡ record self.old { records = map slept self.old.records } }
    {
        for w in &mut self.records {
            *w = sleep::slept(*w);
        }
    }

    // This record at a worker's number. By index, here and in `note`: of an array's `get_mut` a proof knows the length alone.
    pub(crate) fn put_back(&mut self, worker: u8, w: Worker)
        ensures { self.new ≡ record self.old { records = set self.old.records worker w } }
    {
        let i = usize::from(worker);
        if i < self.records.len() {
            self.records[i] = w;
        }
    }

    // §4.9: who has changed the mark word of a bucket last, and at which turn.
    pub(crate) fn change_of(&self, bucket: usize) -> Change
        ensures { result ≡ get_or self.now.changes bucket unchanged }
    {
        self.changes.get(bucket).copied().unwrap_or(UNCHANGED)
    }

    // §4.9: the same of every bucket, after a turn.
    pub(crate) fn note(&mut self, bucket: usize, changed: u32, turn: u32, worker: u8)
        ensures { self.new ≡ record self.old { changes = noted self.old.changes bucket changed turn worker } }
    {
        if changed != 0 && bucket < self.changes.len() {
            self.changes[bucket] = Change {
                turn,
                worker: u32::from(worker),
            };
        }
    }

    // ---- refused, or at the end

    // Everything as it is, and this as the last scene.
    fn last_scene(&mut self, scene: Scene)
        ensures { self.new ≡ last_scene scene self.old }
    {
        self.cursor.over = true;
        self.scene = scene;
    }

    // §9.3: a refusal.
    pub(crate) fn stopped(&mut self, why: Refusal, offset: usize, turn: u32, worker: u8)
        ensures { self.new ≡ stopped (number why) offset turn worker self.old }
    {
        self.last_scene(Scene::Stopped(Stop {
            offset,
            field: self.cursor.field,
            turn,
            number: why.into(),
            worker,
        }));
    }

    // §2.9: the end of the sheet.
    pub(crate) fn ended(&mut self, board: &[u64])
        ensures { self.new ≡ ended board.now self.old }
    {
        let lots = engine::count(board, self.floor).unwrap_or(0);
        self.last_scene(Scene::Over(lots));
    }
}
