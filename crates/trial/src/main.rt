// Plays a sheet and calls: those on standard input, or those of each file that is named.
#![tactic(auto)]

mod play;

use play::play;
use std::io::Read;
use std::{env, fs};

// Plays what stands on standard input.
fn play_input(rt: &HostRuntime) -> anyhow::Result<()> {
    let mut input = Vec::new(rt.alloc());
    rt.stdin().read_to_end(&mut input)?;
    let shown = play(rt.alloc(), input.as_slice())?;
    rt.print(shown)?;
    Ok(())
}

// Plays a file, under a line with its name.
fn play_file(rt: &HostRuntime, name: &str) -> anyhow::Result<()> {
    let input = fs::read(rt, name)?;
    let shown = play(rt.alloc(), input.as_slice())?;
    println!(rt; "# {name}")?;
    rt.print(shown)?;
    Ok(())
}

fn main(rt: HostRuntime) -> anyhow::Result<()> {
    let mut named = false;
    for name in env::args(&rt)?.skip(1) {
        named = true;
        play_file(&rt, name.as_str())?;
    }
    if !named {
        play_input(&rt)?;
    }
    Ok(())
}
