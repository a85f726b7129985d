//! Lists the records of a file, or of standard input, and says how it ended.
#![tactic(auto)]

use anyhow::anyhow;
use listings::listing::{Printed, list};
use records::file::MAX_FILE;
use std::fs::File;
use std::io::{Read, Write};
use std::process::ExitCode;
use std::{env, fmt, io};

// One byte more than a file can have: enough to see that it has too many.
const MOST: u64 = MAX_FILE as u64 + 1;

// Where the bytes come from. Not an `Option` of a path: a message says where by it.
#[derive(Drop)]
enum Source {
    StandardInput,
    Path(String),
}

impl fmt::Display for Source {
    fn fmt<W: fmt::Write>(&self, f: &mut fmt::Formatter<W>) -> fmt::Result {
        match self {
            Source::StandardInput => write!(f, "standard input"),
            Source::Path(path) => write!(f, "{path}"),
        }
    }
}

// What the program is to list: the file that its argument names, or standard input.
fn asked_for(rt: &HostRuntime) -> anyhow::Result<Source> {
    let mut args = env::args(rt)?;
    let _program = args.next();
    let Some(path) = args.next() else {
        return Ok(Source::StandardInput);
    };
    if args.next().is_some() {
        return Err(anyhow!("listing takes one path, or none to read standard input"));
    }
    Ok(Source::Path(path))
}

// The first bytes of the source.
fn read_some(rt: &HostRuntime, source: &Source) -> io::Result<Vec<u8>> {
    let mut bytes = Vec::new(rt.alloc());
    match source {
        Source::StandardInput => rt.stdin().take(MOST).read_to_end(&mut bytes)?,
        Source::Path(path) => {
            let file = File::open(rt, path.as_str())?;
            file.take(MOST).read_to_end(&mut bytes)?
        }
    };
    Ok(bytes)
}

// Prints the listing of some bytes, or why they have none.
fn show(rt: &HostRuntime, bytes: &[u8]) -> anyhow::Result<()> {
    let heap = rt.alloc();
    let text = Printed(list(heap, bytes)?).to_string(heap)?;
    rt.stdout().write_all(text.as_bytes())?;
    Ok(())
}

fn main(rt: HostRuntime) -> anyhow::Result<ExitCode> {
    let source = asked_for(&rt)?;
    match read_some(&rt, &source) {
        Ok(bytes) => {
            show(&rt, &bytes)?;
            Ok(ExitCode::SUCCESS)
        }
        Err(error) => {
            eprintln!(rt; "listing: cannot read {source}: {error}")?;
            Ok(ExitCode::FAILURE)
        }
    }
}
