// Prints stored map images as mapdump prints them, each under its name: the files of data/ that args names.
#![tactic(auto)]

use std::env::{Env, FillError};
use std::fs::File;
use std::io;

fn open(rt: &HostRuntime, path: &[u8]) -> io::Result<File> {
    match str::from_utf8(path) {
        Ok(path) => File::open(rt, path),
        Err(_) => Err(io::Error::from(io::ErrorKind::InvalidInput)),
    }
}

// A line to standard error: the file that could not be opened, and why.
fn fail(rt: &HostRuntime, path: &[u8], error: io::Error) -> io::Result<()> {
    rt.stderr().write_all(path)?;
    eprintln!(rt; ": {error}")
}

fn print_file(rt: &HostRuntime, path: &[u8]) -> io::Result<()> {
    rt.write_all(path)?;
    rt.write_all(b":\n")?;
    match open(rt, path) {
        Ok(mut file) => dump::print_from(rt, &mut file),
        Err(error) => fail(rt, path, error),
    }
}

// Whether there was an argument to print. One that is too long for a path reads as an empty one.
fn print_argument(rt: &HostRuntime, i: usize) -> io::Result<bool> {
    let mut path = [0u8; 4096];
    let n = match rt.arg(i, &mut path) {
        Ok(n) => n,
        Err(FillError::TooLong) => 0,
        Err(FillError::NotPresent) => return Ok(false),
    };
    print_file(rt, &path[..n])?;
    Ok(true)
}

// The first argument is the program's own name.
fn main(rt: HostRuntime) -> io::Result<()> {
    for i in 1..usize::MAX {
        if !print_argument(&rt, i)? {
            break;
        }
    }
    Ok(())
}
