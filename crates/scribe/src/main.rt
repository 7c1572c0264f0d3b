// The program that turns a text into its sheet, and a sheet into its text. What it holds stands in arrays of a fixed size: a proved program
// has no heap.
#![tactic(auto)]

ghost use Rattle.scribe.specs.Answers.{text_answer, sheet_answer, answer, Answers};

use pen::Pen;
use schedule::TEXT;
use sheet::LIMIT;
use std::io;
use std::io::Write;

// The most bytes that a text may have.
const MOST: usize = 262144;

// The most bytes that are said of an input.
const SAID: usize = 256;

// How many bytes stand in the buffer for standard output, and in that for standard error.
#[derive(Clone, Copy, Debug, PartialEq, Eq, Hash)]
struct Answered {
    written: usize,
    said: usize,
}

// A text becomes its sheet.
#[tactic(auto, using(pen::proofs::Putting::pens))]
fn of_text(text: &[u8], out: &mut [u8; TEXT], said: &mut [u8; SAID]) -> Answered
    ensures { Answers (text_answer text.now) out.new said.new result }
{
    if text.len() > MOST {
        let mut pen = Pen { out: said, at: 0 };
        pen.words(b"too long: a text has at most 262144 bytes\n");
        return Answered {
            written: 0,
            said: pen.at,
        };
    }
    let mut sheet = [0u8; LIMIT + 1];
    match schedule::sheet_of(text, &mut sheet) {
        Ok(made) => {
            let mut pen = Pen { out, at: 0 };
            pen.words(&sheet[..made.written]);
            Answered {
                written: pen.at,
                said: 0,
            }
        }
        Err(stopped) => Answered {
            written: 0,
            said: schedule::complain(text, stopped.wrong.at, stopped.wrong.what.number(), said),
        },
    }
}

// A sheet becomes its text.
#[tactic(auto, using(pen::proofs::Putting::pens))]
fn of_sheet(sheet: &[u8], out: &mut [u8; TEXT], said: &mut [u8; SAID]) -> Answered
    ensures { Answers (sheet_answer sheet.now) out.new said.new result }
{
    let mut pen = Pen { out: said, at: 0 };
    if sheet.len() > LIMIT {
        pen.words(b"no sheet: longer than 16384 bytes\n");
        return Answered {
            written: 0,
            said: pen.at,
        };
    }
    match schedule::recite(sheet, out) {
        Ok(recited) => Answered {
            written: recited.written,
            said: 0,
        },
        Err(malformed) => {
            pen.told(b"no sheet: the field at ", malformed.at as u64);
            pen.words(b" is malformed\n");
            Answered {
                written: 0,
                said: pen.at,
            }
        }
    }
}

// The answer for an input.
#[tactic(auto, unfolding(crate::specs::Answers::answer))]
fn answer_of(input: &[u8], out: &mut [u8; TEXT], said: &mut [u8; SAID]) -> Answered
    ensures { Answers (answer input.now) out.new said.new result }
{
    if schedule::is_text(input) {
        of_text(input, out, said)
    } else {
        of_sheet(input, out, said)
    }
}

// An input comes in, and its answer goes out.
fn main(rt: HostRuntime) -> io::Result<()> {
    let mut input = [0u8; MOST + 1];
    let mut out = [0u8; TEXT];
    let mut said = [0u8; SAID];
    let read = intake::fill(&mut rt.stdin(), &mut input)?;
    let answer = answer_of(&input[..read], &mut out, &mut said);
    rt.stdout().write_all(&out[..answer.written])?;
    rt.stderr().write_all(&said[..answer.said])
}
