// Prints what the job file on standard input holds, or why it is refused.
#![tactic(auto)]

use anyhow::anyhow;
use jobfile::record::MAX_FILE;
use listing::{LISTING_BYTES, list_job};
use std::io::{Read, Write};

fn main(rt: HostRuntime) -> anyhow::Result<()> {
    // one byte more than the longest file, so that a longer one is known to be too long
    let mut file = Vec::new(rt.alloc());
    rt.stdin().take(MAX_FILE as u64 + 1).read_to_end(&mut file)?;
    let mut buffer = [0u8; LISTING_BYTES];
    let Ok(count) = list_job(&file, &mut buffer) else {
        return Err(anyhow!("the buffer is too short"));
    };
    let Some(text) = buffer.get(0..count) else {
        return Err(anyhow!("the text is longer than the buffer"));
    };
    rt.stdout().write_all(text)?;
    Ok(())
}
