// Backups into real folders.
use crate::backups::{RING, SHARED, first_wrong_row};
use med_base::NoMemory;
use med_folder::FolderStore;
use med_suite_rows::calls::first_wrong;
use std::alloc::Global;

#[test]
fn files_that_are_the_same_are_shared_in_real_folders(rt: HostRuntime) {
    let mut store = FolderStore::new(rt.alloc(), rt);
    assert_eq!(rt;
        first_wrong(rt.alloc(), &mut store, "open b/k => done"),
        None
    );
    assert_eq!(rt; first_wrong_row(rt.alloc(), &mut store, SHARED, RING), None);
}

// A file of a piece and one byte more, stored, and then named by another backup.
fn past_a_piece(alloc: Global) -> Result<String, NoMemory> {
    let file = "x".repeat(alloc, 1_048_577)?;
    let text = file.as_str();
    let mut table = format!(in alloc; "backup d1 differential a={text} => ")?;
    table.push_str("d1 of n1: 1 files, 1048577 bytes, 0 1 0\n")?;
    let second = format!(in alloc; "backup d2 differential a={text} => ")?;
    table.push_str(second.as_str())?;
    table.push_str("d2 of n1: 1 files, 1048577 bytes, 1 0 0\n")?;
    table.push_str("digest n1/data/ks/t-1/a => 39ab1dfe1a0d0cd8c80781abc46701f4\n")?;
    table.push_str("piece n1/data/ks/t-1/a 1048576 => x")?;
    Ok(table)
}

#[test]
fn a_file_past_a_piece_is_stored_whole_in_a_real_folder(rt: HostRuntime) {
    let mut store = FolderStore::new(rt.alloc(), rt);
    assert_eq!(rt;
        first_wrong(rt.alloc(), &mut store, "open p/k => done"),
        None
    );
    let Ok(table) = past_a_piece(rt.alloc()) else {
        panic!(rt; "no memory");
    };
    assert_eq!(rt;
        first_wrong_row(rt.alloc(), &mut store, table.as_str(), RING),
        None
    );
}
