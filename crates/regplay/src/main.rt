// regplay: plays the writes of `writes.txt` on the bank that `regs.txt` describes, both in the folder that it is run in.
// It prints each write with its answer, and at the end the register list; a fault in a file ends the run.
#![tactic(auto)]

use anyhow::anyhow;
use replay::transcript;
use std::fs;
use std::io::Write;

// The bytes of a file; one that can't be read is told on standard error.
fn file_bytes(rt: &HostRuntime, name: &str) -> anyhow::Result<Vec<u8>> {
    match fs::read(rt, name) {
        Ok(bytes) => Ok(bytes),
        Err(error) => {
            eprintln!(rt; "regplay: cannot read {name}: {error}")?;
            Err(anyhow!("a file is missing"))
        }
    }
}

fn main(rt: HostRuntime) -> anyhow::Result<()> {
    let registers = file_bytes(&rt, "regs.txt")?;
    let writes = file_bytes(&rt, "writes.txt")?;
    let printed = transcript(rt.alloc(), registers.as_slice(), writes.as_slice())?;
    rt.stdout().write_all(printed.as_slice())?;
    Ok(())
}
