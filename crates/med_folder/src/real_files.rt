// Files that are read by their names.
ghost use Rattle.std.specs.Prelude.{◌≡◌, ℕ, None};

use crate::faults::{counted, is_absent};
use std::alloc::Global;
use std::fs::{File, Files};
use std::io;
use std::io::{ErrorKind, Read};
use std::marker::Model;

/// The files of the system, by their paths.
#[derive(Drop)]
pub struct RealFiles<R> {
    rt: R,
    faults: u64,
}

impl<R> Model for RealFiles<R> {
    ghost use Rattle.std.specs.Prelude.{ℕ};

    ghost Value = { ℕ };

    ghost view = { λ s. s.faults };
}

impl<R> RealFiles<R> {
    /// Files without a fault.
    pub fn new(rt: R) -> RealFiles<R>
        ensures { result ≡ 0 }
    {
        RealFiles { rt, faults: 0 }
    }
}

fn read_whole<R: Files>(rt: &R, alloc: Global, path: &str) -> io::Result<Vec<u8>> {
    let mut bytes = Vec::new(alloc);
    File::open(rt, path)?.read_to_end(&mut bytes)?;
    Ok(bytes)
}

// A name with a NUL is that of no file.
fn read_named<R: Files>(rt: &R, alloc: Global, name: &str) -> io::Result<Option<Vec<u8>>> {
    if name.contains('\0') {
        return Ok(None);
    }
    match read_whole(rt, alloc, name) {
        Ok(bytes) => Ok(Some(bytes)),
        Err(error) if is_absent(&error) => Ok(None),
        Err(error) => Err(error),
    }
}

impl<R: Files> med_outside::Files for RealFiles<R> {
    ghost state = { λ s. record { contents = λ _. None; faults = s } };

    /// As the trait says. A link is followed; a folder is a fault.
    fn read(&mut self, alloc: Global, name: &str) -> Result<Option<Vec<u8>>, med_outside::Denied> {
        let outcome = read_named(&self.rt, alloc, name);
        counted(&mut self.faults, outcome)
    }
}
