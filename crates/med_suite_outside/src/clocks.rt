// A storage of folders over a system whose clock and files fail where told.
use crate::calls::refusal;
use med_base::{Layout, ObjPath};
use med_folder::FolderStore;
use med_outside::Storage;
use std::alloc::{Alloc, Allocator, Global};
use std::cell::Cell;
use std::fs::{File, Files, Metadata, OpenOptions};
use std::io;
use std::io::ErrorKind;
use std::time::{Clock, Duration};

// The system. Its clock can be read as often as `readings` says and answers the second 7, or is the
// system's where nothing is said. What has a name that ends in a letter isn't opened.
#[derive(Clone, Drop)]
pub(crate) struct Failing<'a, R> {
    pub(crate) rt: R,
    pub(crate) readings: Option<&'a Cell<u8>>,
    pub(crate) letter: &'a Cell<char>,
}

impl<R: Clock> Clock for Failing<'_, R> {
    fn monotonic(&self) -> io::Result<Duration> {
        self.rt.monotonic()
    }

    fn since_1970(&self) -> io::Result<Duration> {
        let Some(readings) = self.readings else {
            return self.rt.since_1970();
        };
        match readings.get().checked_sub(1) {
            Some(left) => {
                readings.set(left);
                Ok(Duration::from_secs(7))
            }
            None => Err(io::Error::from(ErrorKind::Unsupported)),
        }
    }
}

impl<R: Alloc<A = Global>> Alloc for Failing<'_, R> {
    type A = Global;

    fn alloc(&self) -> Global {
        self.rt.alloc()
    }
}

impl<R: Files> Files for Failing<'_, R> {
    type File = R::File;

    type Dir = R::Dir;

    fn open_file(&self, how: &OpenOptions, path: &str) -> io::Result<R::File> {
        if path.ends_with(self.letter.get()) {
            return Err(io::Error::from(ErrorKind::PermissionDenied));
        }
        self.rt.open_file(how, path)
    }

    fn open_dir(&self, path: &str) -> io::Result<R::Dir> {
        self.rt.open_dir(path)
    }

    fn metadata(&self, path: &str) -> io::Result<Metadata> {
        self.rt.metadata(path)
    }

    fn symlink_metadata(&self, path: &str) -> io::Result<Metadata> {
        self.rt.symlink_metadata(path)
    }

    fn copy(&self, from: &str, to: &str) -> io::Result<u64> {
        self.rt.copy(from, to)
    }

    fn rename(&self, from: &str, to: &str) -> io::Result<()> {
        self.rt.rename(from, to)
    }

    fn remove_file(&self, path: &str) -> io::Result<()> {
        self.rt.remove_file(path)
    }

    fn create_dir(&self, path: &str) -> io::Result<()> {
        self.rt.create_dir(path)
    }

    fn create_dir_with_mode(&self, path: &str, mode: u32) -> io::Result<()> {
        self.rt.create_dir_with_mode(path, mode)
    }

    fn remove_dir(&self, path: &str) -> io::Result<()> {
        self.rt.remove_dir(path)
    }

    fn remove_dir_all<B: Allocator>(&self, alloc: B, path: &str) -> io::Result<()> {
        self.rt.remove_dir_all(alloc, path)
    }
}

#[test]
fn a_clock_that_cant_be_read_gives_the_last_second(rt: HostRuntime) {
    let (readings, letter) = (Cell::new(1), Cell::new('-'));
    let failing = Failing {
        rt,
        readings: Some(&readings),
        letter: &letter,
    };
    let mut store = FolderStore::new(rt.alloc(), failing);
    assert_eq!(rt; store.now(), 7);
    assert_eq!(rt; store.now(), 7);
}

// A call for `index/b/y` where what ends in a letter isn't opened, `put LETTER` or `delete LETTER`,
// answers `done` or a refusal.
fn is_right<R: Files<File = File> + Clock + AllocGlobal + Clone + Drop>(
    alloc: Global,
    store: &mut FolderStore<Failing<'_, R>>,
    letter: &Cell<char>,
    row: &str,
) -> Option<bool> {
    let (call, wanted) = row.split_once(" => ")?;
    let (word, unopened) = call.split_once(' ')?;
    letter.set(unopened.chars().next()?);
    let path = ObjPath::of(alloc, "index/b/y").ok()?;
    let denied = match word {
        "put" => store.put(alloc, &path, b"x").err(),
        "delete" => store.delete(alloc, &path).err(),
        _ => return None,
    };
    match denied {
        None => Some(wanted == "done"),
        Some(denied) => Some(refusal(denied) == wanted),
    }
}

// The first row whose call is answered otherwise.
fn first_wrong<'a, R: Files<File = File> + Clock + AllocGlobal + Clone + Drop>(
    alloc: Global,
    store: &mut FolderStore<Failing<'_, R>>,
    letter: &Cell<char>,
    table: &'a str,
) -> Option<&'a str> {
    for row in table.split('\n') {
        if is_right(alloc, store, letter, row) != Some(true) {
            return Some(row);
        }
    }
    None
}

// None of the folders on the way, and each of them, from the last to the first. What a call that
// failed deleted is gone when it is asked for again.
const UNOPENED: &str = "\
put - => done
put b => failed
put x => failed
put k => failed
delete b => failed
delete b => failed
delete x => done
delete - => done";

#[test]
fn each_folder_whose_names_changed_is_synced(rt: HostRuntime) {
    let (readings, letter) = (Cell::new(0), Cell::new('-'));
    let failing = Failing {
        rt,
        readings: Some(&readings),
        letter: &letter,
    };
    let mut store = FolderStore::new(rt.alloc(), failing);
    let layout = Layout::plain(rt.alloc());
    assert_eq!(rt; store.open(rt.alloc(), "w", "k", &layout), Ok(()));
    assert_eq!(rt;
        first_wrong(rt.alloc(), &mut store, &letter, UNOPENED),
        None
    );
}
