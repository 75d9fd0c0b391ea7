// Lists a print run (document 01, "The print run"): a line for each record of 32 bytes of standard input, or of the file that the one
// argument names. What goes wrong is said on standard error; the exit status is 0 all the same.
//
// Proved: every access lies in its buffer; the program ends if each call of the system's does, after 2^63 records at the latest; list_block
// leaves at the front of `lines` the lines of the bytes in the block, numbered from `first`, and a block that another follows is full. By
// `blocks-listed` of crate listing the lines of such blocks, with `first` 1, 1,025 and so on, are the lines of the whole.
// Not proved, because no contract can speak of what the system reads or writes: that the block holds the input's bytes, that the front of
// `lines` comes out, and what is said on standard error.
#![tactic(auto)]

ghost use Rattle.std.specs.Prelude.{◌≡◌, ◌≤◌, ◌<◌, ◌^◌, take, IfOk};
ghost use Rattle.list_laws.specs.Putting.{at_front};
ghost use Rattle.listing.specs.Line.{lines_from};
ghost use Rattle.print_run.specs.Listed.{listed};

use input::Failed;
use std::fs::File;
use std::io;
use std::io::Read;
use std::rt::{Env, Files};

// A block holds 1,024 records, which make at most 65,536 bytes of lines.
const BLOCK: usize = 32768;

const BLOCK_RECORDS: usize = 1024;

const LINES: usize = 65536;

// One byte more than a path may have.
const PATH: usize = 4096;

// A loop that is proved has to end, and nothing says that the input does. No run has so many blocks: they hold 2^63 records.
const MOST_BLOCKS: usize = 1 << 53;

// What ended the listing before the input did.
#[derive(Drop)]
enum Failure {
    // A read failed, with nothing of its block listed.
    Reading(io::Error),
    // The lines of so many bytes were made, and could not be written.
    Writing { length: usize, error: io::Error },
}

impl From<Failed> for Failure {
    ghost use Rattle.std.specs.Prelude.{◌≡◌};
    ghost use Rattle.print_run.specs.declared.Failure.TheVariants.{Reading};

    ghost from_gives = { λ failed failure. failure ≡ Reading failed.error };

    fn from(failed: Failed) -> Failure {
        Failure::Reading(failed.error)
    }
}

// Reads a block and writes its lines, numbered from `first`: the front of `lines`. Answers how many bytes of the block it listed.
fn list_block(
    rt: &impl Print,
    reader: &mut impl Read,
    first: usize,
    block: &mut [u8; BLOCK],
    lines: &mut [u8; LINES],
) -> Result<usize, Failure>
    requires { first < 2 ^ 63 }
    ensures lines_after { lines.new ≡ at_front (lines_from first (take (listed result) block.new)) lines.old }
    ensures within { IfOk result (λ n. n ≤ 32768) }
{
    let length = input::fill(reader, block)?;
    let written = listing::write_lines(&block[..length], first, lines);
    rt.write_all(&lines[..written])
        .map_err(|error| Failure::Writing { length, error })?;
    Ok(length)
}

// Block after block, until one is not full or something goes wrong.
fn list_all(
    rt: &impl Print,
    reader: &mut impl Read,
    block: &mut [u8; BLOCK],
    lines: &mut [u8; LINES],
) -> Result<(), Failure> {
    for k in 0..MOST_BLOCKS {
        let length = list_block(rt, reader, 1 + BLOCK_RECORDS * k, block, lines)?;
        if length < BLOCK {
            return Ok(());
        }
        // Only a full block is followed by another.
        prove!(length == BLOCK);
    }
    Ok(())
}

fn list(rt: &(impl Print + Eprint), reader: &mut impl Read, name: &str) {
    let mut block = [0; BLOCK];
    let mut lines = [0; LINES];
    match list_all(rt, reader, &mut block, &mut lines) {
        Ok(()) => {}
        Err(Failure::Reading(error)) => input::fail(rt, name, &error),
        Err(Failure::Writing { length: _, error }) => input::fail(rt, "standard output", &error),
    }
}

// Lists the file that an argument names.
fn list_file(rt: &(impl Files + Print + Eprint), path: &[u8]) {
    let Ok(name) = str::from_utf8(path) else {
        let _ = eprintln!(rt; "file name: not UTF-8");
        return;
    };
    match File::open(rt, name) {
        Ok(mut file) => list(rt, &mut file, name),
        Err(error) => input::fail(rt, name, &error),
    }
}

fn main(rt: HostRuntime) {
    let count = input::argument_count(&rt);
    if 2 < count {
        let _ = eprintln!(rt; "usage: print_run [FILE]");
        return;
    }
    if count < 2 {
        list(&rt, &mut rt.stdin(), "standard input");
        return;
    }
    let mut path = [0; PATH];
    match rt.arg(1, &mut path) {
        Ok(length) => list_file(&rt, &path[..length]),
        Err(_) => {
            let _ = eprintln!(rt; "file name: File name too long");
        }
    }
}
