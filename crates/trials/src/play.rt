// A story played, and written down.
use crate::story::{Modes, Setting, call, read_setting};
use anyhow::{Result, anyhow, bail};
use engine::Engine;
use entries::{Line, Lines};
use ledger::{Answer, Call};
use modes::counting::Counting;
use modes::gray::Gray;
use modes::system::ModeSystem;
use operations::Outcome;
use shelf::{JoinedShelf, PackedShelf, Shelf, WordShelf};
use std::alloc::Global;
use std::fmt;
use std::fmt::Write;

// The most calls of one story.
const MOST: usize = 10000;

// An answer as a story's line has it, with the space behind it.
#[derive(Clone, Copy)]
struct Shown(Answer);

impl fmt::Display for Shown {
    fn fmt<W: Write>(&self, f: &mut fmt::Formatter<W>) -> fmt::Result {
        match self.0 {
            Answer::Job(number) => write!(f, "job{number} "),
            Answer::Told(Outcome::Figures(sum, count)) => write!(f, "read{sum}/{count} "),
            Answer::Told(Outcome::Average(mean)) => write!(f, "mean{mean} "),
            Answer::Told(Outcome::Done) => write!(f, "done "),
            Answer::Waits => write!(f, "waits "),
            Answer::Head(group, holders) => write!(f, "head{group}/{holders} "),
            Answer::Refused(refusal) => write!(f, "refused{} ", refusal.number()),
        }
    }
}

// The calls of a line, over an engine.
fn play<M: ModeSystem + Drop, S: Shelf + Drop>(
    heap: Global,
    mut engine: Engine<M, S>,
    setting: &Setting,
    calls: Line<'_>,
) -> Result<String> {
    let mut out = String::new(heap);
    let laid = engine.serve(setting.lay());
    write!(out, "{}", Shown(laid))?;
    for entry in calls.take(MOST) {
        // No `context`: its result has room for an error, and would be moved about at every call.
        let Some(call) = call(entry, setting) else {
            bail!("no such call");
        };
        write!(out, "{}", Shown(engine.serve(call)))?;
    }
    out.push_str("end")?;
    if matches!(laid, Answer::Told(_)) {
        let shelf = engine.shelf();
        for word in (0..setting.parents.len()).map_while(|place| shelf.get(place)) {
            write!(out, " {word}")?;
        }
    }
    out.push_str("\n")?;
    Ok(out)
}

// The story with which a text begins, on one shelf.
fn on_shelf<S: Shelf + Drop>(heap: Global, text: &[u8], shelf: S) -> Result<String> {
    let mut line = Lines::new(text).next_line();
    let setting = read_setting(heap, &mut line)?;
    // A `match`, since the system is the type that an engine is over.
    match setting.modes {
        Modes::Gray => play(heap, Engine::new(Gray, shelf), &setting, line),
        Modes::Counting => play(heap, Engine::new(Counting, shelf), &setting, line),
    }
}

// The line that the first story of a text comes to, on all three shelves alike.
pub fn line_of(heap: Global, text: &[u8]) -> Result<String> {
    let on_words = on_shelf(heap, text, WordShelf::new(heap, 256)?)?;
    let on_bytes = on_shelf(heap, text, PackedShelf::new(heap, 256)?)?;
    let first = WordShelf::new(heap, 3)?;
    let second = PackedShelf::new(heap, 253)?;
    let on_both = on_shelf(heap, text, JoinedShelf::new(first, second))?;
    if on_bytes.as_str() != on_words.as_str() || on_both.as_str() != on_words.as_str() {
        return Err(anyhow!("the shelves differ"));
    }
    Ok(on_words)
}
