// Plays small stories over the engine and prints a line for each, what every call answered and the words that are left.
//
// The file stories.txt of the current folder has a story a line, its entries separated by one space: `g` for Gray's modes or `n` for the counting ones,
// the number of granules, their parents, their first words, and the calls. `o` opens a job, `r1.3` reads granule 3 for
// job 1, `m1.3` asks for the mean, `s1.3=7` sets, `a1.3=7` adds; `g1` goes, `w1` works again, `c1` commits, `x1` gives up; `?3` looks at
// granule 3, and `l` lays out once more. Each story is played on three shelves, which must answer alike.
//
// Files: `story` (reading a line), `play` (playing it).
#![tactic(auto)]

mod play;
mod story;
#[cfg(test)]
mod tests;

use play::line_of;
use std::fs;

// The most stories of one file.
const MOST: usize = 10000;

fn main(rt: HostRuntime) -> anyhow::Result<()> {
    let text = fs::read(&rt, "stories.txt")?;
    let lines = text.as_slice().split_inclusive(|byte| *byte == b'\n');
    for line in lines.take(MOST) {
        rt.print(line_of(rt.alloc(), line)?)?;
    }
    Ok(())
}
