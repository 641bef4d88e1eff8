// A story read from its line.
use anyhow::{Context, Result, anyhow, bail};
use entries::Line;
use entries::cut::cut_at;
use entries::number::number;
use ledger::Call;
use operations::{Action, Operation};
use std::alloc::Global;

#[derive(Clone, Copy)]
pub enum Modes {
    Gray,
    Counting,
}

// What an engine is laid out with.
#[derive(Drop)]
pub struct Setting {
    pub modes: Modes,
    pub parents: Vec<u32>,
    pub words: Vec<u32>,
}

impl Setting {
    // The call that lays an engine out so.
    pub(crate) fn lay(&self) -> Call<'_> {
        Call::Lay(self.parents.as_slice(), self.words.as_slice())
    }
}

// The next entries of a line, as numbers. No `collect`: an entry that is no number ends it, and so does want of memory.
fn numbers(heap: Global, line: &mut Line<'_>, count: u32) -> Result<Vec<u32>> {
    let mut values = Vec::new(heap);
    for _ in 0..count {
        // No `context`: its result has room for an error, and would be moved about at every number.
        let Some(value) = line.next().and_then(number) else {
            bail!("no such story");
        };
        values.push(value).map_err(|_| anyhow!("no memory"))?;
    }
    Ok(values)
}

// The beginning of a line, up to the calls.
pub fn read_setting(heap: Global, line: &mut Line<'_>) -> Result<Setting> {
    let modes = match line.next() {
        Some([b'g']) => Modes::Gray,
        Some([b'n']) => Modes::Counting,
        _ => return Err(anyhow!("no such story")),
    };
    let granules = line.next().and_then(number).context("no such story")?;
    let parents = numbers(heap, line, granules)?;
    let words = numbers(heap, line, granules)?;
    Ok(Setting {
        modes,
        parents,
        words,
    })
}

// The operation of a job: the rest of an entry after its letter. The other program reads the same letters; no crate beneath the two both
// reads texts and knows operations, and one of its own would hold these four arms alone.
fn operation(letter: u8, rest: &[u8]) -> Option<(u32, Operation)> {
    let (place, word) = cut_at(rest, b'=');
    let (job, granule) = cut_at(place, b'.');
    let job = number(job)?;
    let granule = number(granule?)?;
    let action = match (letter, word) {
        (b'r', None) => Action::Read,
        (b'm', None) => Action::Mean,
        (b's', Some(word)) => Action::Set(number(word)?),
        (b'a', Some(word)) => Action::Add(number(word)?),
        _ => return None,
    };
    Some((job, Operation { granule, action }))
}

// The call that an entry stands for.
pub fn call<'a>(entry: &[u8], setting: &'a Setting) -> Option<Call<'a>> {
    match entry {
        [b'l'] => Some(setting.lay()),
        [b'o'] => Some(Call::Open),
        [b'?', granule @ ..] => Some(Call::Look(number(granule)?)),
        [b'g', job @ ..] => Some(Call::Go(number(job)?)),
        [b'w', job @ ..] => Some(Call::Again(number(job)?)),
        [b'c', job @ ..] => Some(Call::Commit(number(job)?)),
        [b'x', job @ ..] => Some(Call::GiveUp(number(job)?)),
        [letter, rest @ ..] => {
            let (job, operation) = operation(*letter, rest)?;
            Some(Call::Carry(job, operation))
        }
        [] => None,
    }
}
