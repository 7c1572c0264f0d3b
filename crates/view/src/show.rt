// A sheet played from its start: a page of the board's text, and the refusal alone.
#![tactic(auto, using(pen::proofs::Putting::pens))]

ghost use Rattle.std.specs.Prelude.{◌≡◌};
ghost use Rattle.pen.specs.Written.{Writes};
ghost use Rattle.view.specs.Scenes.{scenes_on, refusal_in, all_refused};
ghost use Rattle.view.specs.Promises.{PagePut};

use crate::{Scene, Stage, telling};
use pen::Pen;

// A page has so many scenes.
const PER_PAGE: usize = 1024;

// The scenes from the first on, to the end of the page or of the sheet; and whether the page is the last.
pub fn page(pen: &mut Pen<'_>, sheet: &[u8], board: &mut [u64], page: usize) -> bool
    ensures { PagePut (scenes_on sheet.now board.old) page pen.old pen.new result }
{
    let mut stage = Stage::shut();
    // no more scenes than the sheet has bytes, and one
    for n in 0..=sheet.len() {
        if n / PER_PAGE > page {
            break;
        }
        stage.next(sheet, board);
        if n / PER_PAGE == page {
            telling::stage(pen, board, &stage);
        }
        if stage.cursor.over {
            return true;
        }
    }
    false
}

// The stage with the last scene. Nothing is counted: a sheet has no more scenes than bytes, and one.
pub fn last(sheet: &[u8], board: &mut [u64]) -> Stage
    ensures { refusal_in result.scene ≡ all_refused (scenes_on sheet.now board.old) }
{
    let mut stage = Stage::shut();
    loop {
        stage.next(sheet, board);
        if stage.cursor.over {
            return stage;
        }
    }
}

// §9.3: the sentence of a refusal; nothing of another scene.
pub fn refused(pen: &mut Pen<'_>, scene: Scene)
    ensures { Writes pen.old (refusal_in scene) pen.new }
{
    if let Scene::Stopped(stop) = scene {
        telling::stop(pen, stop);
    }
}
