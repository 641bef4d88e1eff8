// Reading the input, entry by entry.
ghost use Rattle.std.specs.Prelude.{◌≡◌, ◌≤◌, IfOk, vec_items};
ghost use Rattle.std.specs.Option.{option_map};
ghost use Rattle.entries.specs.Lines.{remains};
ghost use Rattle.alone.specs.Inputs.{ReadAs, within, sizes, all_of, read_lines, reading, input_of};
ghost use Rattle.alone.specs.Inputs.{action_of, granule_in, lettered, operation_in};

use crate::denied::Denied;
use entries::cut::cut_at;
use entries::number::number;
use entries::{Line, Lines};
use operations::{Action, Operation};
use std::alloc::Global;

// What is to be run.
#[derive(Drop)]
pub struct Work {
    pub parents: Vec<u32>,
    pub words: Vec<u32>,
    pub operations: Vec<Operation>,
}

// A number, if there is one and it lies from `low` to `high`.
fn bounded(value: Option<u32>, low: u32, high: u32) -> Option<u32>
    ensures value { result ≡ within low high value }
{
    value.filter(|value| (low..=high).contains(value))
}

// Line 1: the number of granules and the number of operations.
fn sizes(mut line: Line<'_>) -> Result<(u32, u32), Denied>
    ensures value { ReadAs (λ n. n) (sizes (remains line.entry)) result }
    ensures bound { IfOk result (λ n. (n.0 ≤ 256) × (n.1 ≤ 1024)) }
{
    let granules = line.next_entry().and_then(number);
    let granules = bounded(granules, 1, 256).ok_or(Denied::Entry(1, 1))?;
    let operations = line.next_entry().and_then(number);
    let operations = bounded(operations, 0, 1024).ok_or(Denied::Entry(1, 2))?;
    if !line.is_spent() {
        return Err(Denied::Entry(1, 3));
    }
    Ok((granules, operations))
}

// The entries of a line, so many and no more, as `read` reads each.
fn all_of<T: Drop, F: Fn(&[u8]) -> Option<T>>(
    heap: Global,
    mut line: Line<'_>,
    at: u32,
    count: u32,
    read: F,
) -> Result<Vec<T>, Denied>
    requires few { count ≤ 1024 }
    requires callable { F.IsAlwaysCallable read }
    ensures value { (f : _) → ((entry : _) (r : _) → F.post read entry r → r ≡ f entry.now) → ReadAs vec_items (all_of f at 1 count (remains line.entry)) result }
{
    let mut values = Vec::new(heap);
    // Counted from 0: a loop over 1..=count can end in two places, each to be proved.
    for i in 0..count {
        let value = line
            .next_entry()
            .and_then(&read)
            .ok_or(Denied::Entry(at, i + 1))?;
        values.push(value)?;
    }
    if !line.is_spent() {
        return Err(Denied::Entry(at, count + 1));
    }
    Ok(values)
}

// What an operation does, by its letter and the bytes after its `=`, if it has one. The other program reads the same letters; no crate
// beneath the two both reads texts and knows operations, and one of its own would hold these four arms alone.
fn action(letter: u8, word: Option<&[u8]>) -> Option<Action>
    ensures value { result ≡ action_of letter (option_map (λ x. x.now) word.entry) }
{
    match (letter, word) {
        (b'r', None) => Some(Action::Read),
        (b'm', None) => Some(Action::Mean),
        (b's', Some(word)) => Some(Action::Set(number(word)?)),
        (b'a', Some(word)) => Some(Action::Add(number(word)?)),
        _ => None,
    }
}

// The number of a granule, of which there are so many.
fn granule(bytes: &[u8], granules: u32) -> Option<u32>
    ensures value { result ≡ granule_in granules bytes.now }
{
    number(bytes).filter(|granule| *granule < granules)
}

// An operation by its letter and what follows it: a granule and, for `s` and `a`, a word after `=`.
fn lettered(letter: u8, rest: &[u8], granules: u32) -> Option<Operation>
    ensures value { result ≡ lettered granules letter rest.now }
{
    let (place, word) = cut_at(rest, b'=');
    let granule = granule(place, granules)?;
    let action = action(letter, word)?;
    Some(Operation { granule, action })
}

// An operation.
fn operation(entry: &[u8], granules: u32) -> Option<Operation>
    ensures value { result ≡ operation_in granules entry.now }
{
    let (letter, rest) = entry.split_first()?;
    lettered(*letter, rest, granules)
}

// The four lines with which a text goes on, each cut off when it is read. Anything after them is a bad entry 1 of line 5.
fn read_lines(heap: Global, lines: &mut Lines<'_>) -> Result<Work, Denied>
    ensures value { ReadAs input_of (reading lines.old.rest.now) result }
{
    let first = lines.next_line();
    let (granules, count) = sizes(first)?;
    let second = lines.next_line();
    let parents = all_of(heap, second, 2, granules, number)?;
    let third = lines.next_line();
    let words = all_of(heap, third, 3, granules, number)?;
    let fourth = lines.next_line();
    let operations = all_of(heap, fourth, 4, count, |entry| operation(entry, granules))?;
    if !lines.is_spent() {
        return Err(Denied::Entry(5, 1));
    }
    Ok(Work {
        parents,
        words,
        operations,
    })
}

// The whole input.
pub fn read(heap: Global, text: &[u8]) -> Result<Work, Denied>
    ensures value { ReadAs input_of (reading text.now) result }
{
    let mut lines = Lines::new(text);
    read_lines(heap, &mut lines)
}
