// Paths that are built, as the table of the layout writes them, and their kinds.
use crate::kinds::kind_words;
use crate::values::key_of;
use med_base::{
    BackupName, FileKey, Fqdn, Layout, NoMemory, ObjPath, PathKind, builders_and_data,
    builders_and_kinds,
};
use std::alloc::Global;
use std::test::Fail;

// A node, a backup and a key with `_`, dots, spaces and letters beyond ASCII in their names.
#[derive(Drop)]
struct Names {
    node: Fqdn,
    backup: BackupName,
    key: FileKey,
}

fn odd_names(alloc: Global) -> Option<Names> {
    let node = Fqdn::read(alloc, "n_1.é x").ok()?;
    let backup = BackupName::read(alloc, "index_ .b_7").ok()?;
    let key = key_of(alloc, "data/t-1.i_x/.ü Data.db")?;
    Some(Names { node, backup, key })
}

// The path that the builder of a kind gives for these names.
fn path_of(alloc: Global, layout: &Layout, names: &Names, kind: PathKind<'_>) -> Option<ObjPath> {
    let Names { node, backup, key } = names;
    match kind {
        PathKind::Shared { .. } => layout.shared(alloc, node, key).ok(),
        PathKind::Own { .. } => layout.own(alloc, node, backup, key).ok(),
        PathKind::Meta { kind, .. } => layout.meta(alloc, node, backup, kind).ok(),
        PathKind::IndexEntry { kind, .. } => layout.index_entry(alloc, node, backup, kind).ok(),
        PathKind::Latest { kind, .. } => layout.latest(alloc, node, kind).ok(),
        PathKind::Stray { .. } | PathKind::Other => None,
    }
}

// Whether the builder of a kind gives this path for the odd names.
fn is_built(alloc: Global, layout: &Layout, kind: PathKind<'_>, path: &ObjPath) -> Option<bool> {
    let names = odd_names(alloc)?;
    Some(path_of(alloc, layout, &names, kind)?.as_str() == path.as_str())
}

// Whether a row is right: PATH|KIND. Behind what stands before each path, the path is of the kind,
// in words, and the builder of the kind gives the path.
fn is_row_right(alloc: Global, layout: &Layout, before: &str, row: &str) -> Option<bool> {
    let (text, words) = row.split_once('|')?;
    let path = ObjPath::from_string(format!(in alloc; "{before}{text}").ok()?);
    let kind = layout.classify(&path);
    let is_told = kind_words(alloc, kind)?.as_str() == words;
    Some(is_told && is_built(alloc, layout, kind, &path)?)
}

const PATHS: &str = "\
n_1.é x/data/data/t-1.i_x/.ü Data.db|shared|n_1.é x|data|t-1.i_x|.ü Data.db
n_1.é x/index_ .b_7/data/data/t-1.i_x/.ü Data.db\
|own|n_1.é x|index_ .b_7|data|t-1.i_x|.ü Data.db
n_1.é x/index_ .b_7/meta/schema.cql|meta schema|n_1.é x|index_ .b_7
n_1.é x/index_ .b_7/meta/differential|meta differential|n_1.é x|index_ .b_7
n_1.é x/index_ .b_7/meta/tokenmap.json|meta tokenmap|n_1.é x|index_ .b_7
n_1.é x/index_ .b_7/meta/manifest.json|meta manifest|n_1.é x|index_ .b_7
index/backup_index/index_ .b_7/tokenmap_n_1.é x.json|entry tokenmap|n_1.é x|index_ .b_7
index/backup_index/index_ .b_7/manifest_n_1.é x.json|entry manifest|n_1.é x|index_ .b_7
index/backup_index/index_ .b_7/started_n_1.é x_18446744073709551615.timestamp\
|entry started 18446744073709551615|n_1.é x|index_ .b_7
index/backup_index/index_ .b_7/finished_n_1.é x_0.timestamp|entry finished 0|n_1.é x|index_ .b_7
index/backup_index/index_ .b_7/differential_n_1.é x|entry differential|n_1.é x|index_ .b_7
index/latest_backup/n_1.é x/backup_name.txt|latest name|n_1.é x
index/latest_backup/n_1.é x/tokenmap.json|latest tokenmap|n_1.é x";

// The first row that isn't right.
fn first_wrong(alloc: Global, layout: &Layout, before: &str) -> Option<&'static str> {
    for row in PATHS.split('\n') {
        if is_row_right(alloc, layout, before, row) != Some(true) {
            return Some(row);
        }
    }
    None
}

#[test]
fn every_path_that_is_built_comes_back(rt: HostRuntime) -> Result<(), Fail> {
    builders_and_kinds();
    builders_and_data();
    for (prefix, before) in [("", ""), ("a b/ü", "a b/ü/")] {
        let layout = Layout::new(rt.alloc(), prefix)?;
        assert_eq!(rt;
            first_wrong(rt.alloc(), &layout, before),
            None,
            "at {prefix}"
        );
    }
    Ok(())
}

fn is_text(text: Result<String, NoMemory>, expected: &str) -> bool {
    match text {
        Ok(text) => text.as_str() == expected,
        Err(NoMemory) => false,
    }
}

// Whether the folders of the node, of the backup and of its entries in the index end in a slash.
fn are_folders(alloc: Global, layout: &Layout, names: &Names) -> bool {
    let Names { node, backup, .. } = names;
    is_text(layout.node_folder(alloc, node), "a/b/n_1.é x/")
        && is_text(
            layout.backup_folder(alloc, node, backup),
            "a/b/n_1.é x/index_ .b_7/",
        )
        && is_text(
            layout.index_folder(alloc, backup),
            "a/b/index/backup_index/index_ .b_7/",
        )
}

fn are_folders_under_a_prefix(alloc: Global) -> Option<bool> {
    let names = odd_names(alloc)?;
    let layout = Layout::new(alloc, "a/b").ok()?;
    Some(are_folders(alloc, &layout, &names))
}

#[test]
fn folders_end_in_a_slash(rt: HostRuntime) {
    assert_eq!(rt; are_folders_under_a_prefix(rt.alloc()), Some(true));
}
