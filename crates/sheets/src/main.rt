// Judges stored sheets, each named by an argument, and prints the name and then what is told of the sheet. The argument `cut` has the next sheet judged at every length up to its own.
#![tactic(auto)]

use info::describe;
use std::env::Env;
use std::fs::Files;
use std::{env, fs};

// What is told of each beginning of the sheet that is long enough, under a heading.
fn judge_from<R: Print + AllocGlobal>(
    rt: &R,
    name: &str,
    sheet: &[u8],
    shortest: usize,
) -> anyhow::Result<()> {
    for length in shortest..=sheet.len() {
        let text = describe(rt.alloc(), &sheet[..length])?;
        print!(rt; "{name} {length}\n{text}")?;
    }
    Ok(())
}

fn run<R: Print + Env + Files + AllocGlobal>(rt: &R) -> anyhow::Result<()> {
    // A flag, since a word of the command line bears on the next one that is no `cut`.
    let mut cut = false;
    for word in env::args(rt)?.skip(1) {
        if word.as_str() == "cut" {
            cut = true;
        } else {
            let sheet = fs::read(rt, word.as_str())?;
            let shortest = if cut { 0 } else { sheet.len() };
            judge_from(rt, word.as_str(), sheet.as_slice(), shortest)?;
            cut = false;
        }
    }
    Ok(())
}

fn main(rt: HostRuntime) -> anyhow::Result<()> {
    run(&rt)
}
