// boardlist: lists the clocks of `board.txt` in the folder that it is run in, one to a line, or says what is wrong with the file.
#![tactic(auto)]

use anyhow::anyhow;
use listing::listing;
use std::fs;
use std::io::Write;

fn main(rt: HostRuntime) -> anyhow::Result<()> {
    // as regplay reads its files: a crate for these lines is no plainer
    let text = match fs::read(&rt, "board.txt") {
        Ok(text) => text,
        Err(error) => {
            eprintln!(rt; "boardlist: cannot read board.txt: {error}")?;
            return Err(anyhow!("no board"));
        }
    };
    let printed = listing(rt.alloc(), text.as_slice())?;
    rt.stdout().write_all(printed.as_slice())?;
    Ok(())
}
