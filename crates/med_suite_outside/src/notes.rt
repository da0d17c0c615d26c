// Fingerprints that a storage of folders noted, and files that changed since.
use crate::clocks::Failing;
use crate::writing::{first_wrong, first_wrong_of};
use med_folder::FolderStore;
use std::cell::Cell;

// A file that may not be opened is answered from what was noted, and one that changed is not.
const NOTED: &str = "\
one open writing/s => done
one upload n1/files/ks/t/a=abc => done
one stat n1/files/ks/t/a => abc
letter a
one stat n1/files/ks/t/a => abc
one get n1/files/ks/t/a => failed
file writing/s/n1/files/ks/t/a=xyz
one stat n1/files/ks/t/a => failed
letter -
one stat n1/files/ks/t/a => xyz
letter a
one stat n1/files/ks/t/a => xyz
date writing/s/n1/files/ks/t/a=1000
one stat n1/files/ks/t/a => failed
letter -
one put n1/files/ks/t/a=uvw => listed
one stat n1/files/ks/t/a => uvw
one upload n1/files/ks/t/a= => done
one stat n1/files/ks/t/a => 
one delete n1/files/ks/t/a => done
one stat n1/files/ks/t/a => absent
one upload n1/files/ks/t/b=abc => done
one stat n1/files/ks/t/b => abc
letter b
one stat n1/files/ks/t/b => abc
file writing/s/n1/files/ks/t/b=abcd
one stat n1/files/ks/t/b => failed";

#[test]
fn a_file_is_read_through_where_it_changed(rt: HostRuntime) {
    assert_eq!(rt; first_wrong_of(rt, NOTED), None);
}

// What was uploaded is told from the note that was made then: its file isn't opened. The clock is the
// system's, since an upload is noted by it.
const UPLOADED: &str = "\
one open writing/u => done
one upload n1/files/ks/t/a=abc => done
letter a
one stat n1/files/ks/t/a => abc
one get n1/files/ks/t/a => failed
two open writing/u => done
two get n1/files/ks/t/a => abc
date writing/u/n1/files/ks/t/a=1000
one stat n1/files/ks/t/a => failed
letter -
one upload n1/files/ks/t/b=abc => done
letter b
one stat n1/files/ks/t/b => abc
file writing/u/n1/files/ks/t/b=abcd
one stat n1/files/ks/t/b => failed";

#[test]
fn what_was_uploaded_is_told_without_opening_its_file(rt: HostRuntime) {
    let letter = Cell::new('-');
    let failing = Failing {
        rt,
        readings: None,
        letter: &letter,
    };
    let mut one = FolderStore::new(rt.alloc(), failing);
    let mut two = FolderStore::new(rt.alloc(), rt);
    assert_eq!(rt;
        first_wrong(&rt, rt.alloc(), &letter, &mut one, &mut two, UPLOADED),
        None
    );
}
