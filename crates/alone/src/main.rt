// Runs a list of operations as one job, with nobody else about, and prints what each answers and the words that are left.
//
// Input: line 1 has the number of granules and the number of operations, line 2 the parents, line 3 the first words, line 4
// the operations. Files: `input` (reading it), `floor` (the words), `listing` (running it and writing the answers down),
// `denied` (why it is not run).
#![tactic(auto)]

mod denied;
mod floor;
mod input;
mod listing;
#[cfg(test)]
mod tests;

use anyhow::anyhow;
use denied::Denied;
use listing::report_on;
use std::io::Read;

fn main(rt: HostRuntime) -> anyhow::Result<()> {
    let mut text = Vec::new(rt.alloc());
    rt.stdin().read_to_end(&mut text)?;
    match report_on(rt.alloc(), text.as_slice()) {
        Ok(report) => print!(rt; "{report}")?,
        Err(Denied::Memory) => return Err(Denied::Memory.into()),
        Err(denied) => {
            println!(rt; "{denied}")?;
            return Err(anyhow!("the input was not admitted"));
        }
    }
    Ok(())
}
