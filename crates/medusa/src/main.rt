//! The program `medusa`: the top call over real files, folders and streams.
#![tactic(auto)]

use med_commands::{medusa_main, tell_no_memory};
use med_folder::{FolderNodes, FolderStore, RealFiles, RealSink};
use std::alloc::AllocError;
use std::env::Env;
use std::fs::{File, Files};
use std::io::ErrorKind;
use std::process::ExitCode;
use std::{env, io};

// The words after the program's name. Where one is no UTF-8 there are none, which is refused as a
// faulty command line.
fn read_words(rt: &(impl Env + AllocGlobal)) -> Result<Vec<String>, AllocError> {
    let mut words = Vec::new(rt.alloc());
    match env::args(rt) {
        Ok(args) => {
            for word in args.skip(1) {
                words.push(word)?;
            }
            Ok(words)
        }
        Err(error) if error.kind() == ErrorKind::OutOfMemory => Err(AllocError),
        Err(_) => Ok(words),
    }
}

// Where a standard stream was closed before the program began, a file that is opened later would
// take its number, and what is printed would be written into that file. Three files that can only be
// read take these numbers first, so a line is refused then and never lands in an object.
fn hold_streams<R: Files>(rt: &R) -> [io::Result<R::File>; 3] {
    let open = || File::open(rt, "/dev/null");
    [open(), open(), open()]
}

fn main(rt: HostRuntime) -> ExitCode {
    let alloc = rt.alloc();
    let _held = hold_streams(&rt);
    let mut out = RealSink::new(rt.stdout());
    let mut err = RealSink::new(rt.stderr());
    let Ok(words) = read_words(&rt) else {
        return ExitCode::from(tell_no_memory(&mut err));
    };
    let mut files = RealFiles::new(rt);
    let mut store = FolderStore::new(alloc, rt);
    let mut nodes = FolderNodes::new(alloc, rt);
    let status = medusa_main(
        alloc,
        words.as_slice(),
        &mut files,
        &mut store,
        &mut nodes,
        &mut out,
        &mut err,
    );
    ExitCode::from(status)
}
