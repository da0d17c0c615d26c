// The kinds of paths, by the table of the layout.
use med_base::{IndexKind, LatestKind, Layout, MetaKind, ObjPath, PathKind};
use std::alloc::Global;
use std::test::Fail;

fn meta_word(kind: MetaKind) -> &'static str {
    match kind {
        MetaKind::Schema => "schema",
        MetaKind::Differential => "differential",
        MetaKind::Tokenmap => "tokenmap",
        MetaKind::Manifest => "manifest",
    }
}

fn latest_word(kind: LatestKind) -> &'static str {
    match kind {
        LatestKind::Name => "name",
        LatestKind::Tokenmap => "tokenmap",
    }
}

// An entry of the index in words, with its node and its backup.
fn entry_words(alloc: Global, kind: IndexKind, owner: &str, backup: &str) -> Option<String> {
    let (word, second) = match kind {
        IndexKind::Tokenmap => ("tokenmap", None),
        IndexKind::Manifest => ("manifest", None),
        IndexKind::Started(second) => ("started", Some(second)),
        IndexKind::Finished(second) => ("finished", Some(second)),
        IndexKind::Differential => ("differential", None),
    };
    match second {
        Some(second) => format!(in alloc; "entry {word} {second}|{owner}|{backup}").ok(),
        None => format!(in alloc; "entry {word}|{owner}|{backup}").ok(),
    }
}

/// A kind in words: what it is, and the names in it, each behind a bar.
pub(crate) fn kind_words(alloc: Global, kind: PathKind<'_>) -> Option<String> {
    match kind {
        PathKind::Shared {
            owner,
            keyspace,
            table,
            file,
        } => format!(in alloc; "shared|{owner}|{keyspace}|{table}|{file}").ok(),
        PathKind::Own {
            owner,
            backup,
            keyspace,
            table,
            file,
        } => format!(in alloc; "own|{owner}|{backup}|{keyspace}|{table}|{file}").ok(),
        PathKind::Meta {
            owner,
            backup,
            kind,
        } => {
            let word = meta_word(kind);
            format!(in alloc; "meta {word}|{owner}|{backup}").ok()
        }
        PathKind::Stray {
            owner,
            backup: Some(backup),
        } => format!(in alloc; "stray|{owner}|{backup}").ok(),
        PathKind::Stray {
            owner,
            backup: None,
        } => format!(in alloc; "stray|{owner}").ok(),
        PathKind::IndexEntry {
            owner,
            backup,
            kind,
        } => entry_words(alloc, kind, owner, backup),
        PathKind::Latest { owner, kind } => {
            let word = latest_word(kind);
            format!(in alloc; "latest {word}|{owner}").ok()
        }
        PathKind::Other => String::from_str(alloc, "other").ok(),
    }
}

// Whether a row is right: PATH|KIND, the kind in words.
fn is_kind_right(alloc: Global, layout: &Layout, row: &str) -> Option<bool> {
    let (path, kind) = row.split_once('|')?;
    let path = ObjPath::of(alloc, path).ok()?;
    Some(kind_words(alloc, layout.classify(&path))?.as_str() == kind)
}

// The first row that isn't right.
fn first_wrong<'a>(alloc: Global, layout: &Layout, table: &'a str) -> Option<&'a str> {
    for row in table.split('\n') {
        if is_kind_right(alloc, layout, row) != Some(true) {
            return Some(row);
        }
    }
    None
}

const KINDS: &str = "\
n1/data/ks/t-1/f|shared|n1|ks|t-1|f
n1/b1/data/ks/t-1/f|own|n1|b1|ks|t-1|f
n1/b1/meta/manifest.json|meta manifest|n1|b1
n1/b1/meta/x|stray|n1|b1
n1/meta/meta/schema.cql|stray|n1
n1/data/ks/f|stray|n1
index/backup_index/b1/started_n_1_7.timestamp|entry started 7|n_1|b1
index/backup_index/b1/started_n1_07.timestamp|other
index/latest_backup/n1/x|other
x|other";

#[test]
fn each_row_of_the_table_has_its_kind(rt: HostRuntime) {
    let layout = Layout::plain(rt.alloc());
    assert_eq!(rt; first_wrong(rt.alloc(), &layout, KINDS), None);
}

const NEAR_MISSES: &str = "\
n1/|stray|n1
n1/b1|stray|n1
n1/b1/|stray|n1|b1
n1//b1/meta/schema.cql|stray|n1
n1/.b1/meta/schema.cql|stray|n1
n1/b1//meta/schema.cql|stray|n1|b1
n1/b1/meta|stray|n1|b1
n1/b1/meta/manifest.json.bak|stray|n1|b1
n1/b1/meta/manifest.json/|stray|n1|b1
n1/b1/Meta/manifest.json|stray|n1|b1
n1/data|stray|n1
n1/data/ks//f|stray|n1
n1/data/ks/t/..|stray|n1
n1/data/ks/t/f/x|stray|n1
n1/b1/data/ks/f|stray|n1|b1
n1/b1/data/ks/t/f/x|stray|n1|b1
n1/data2/data/ks/t/|stray|n1|data2
n1/index_/data|stray|n1|index_";

#[test]
fn a_near_miss_is_a_stray_of_its_node(rt: HostRuntime) {
    let layout = Layout::plain(rt.alloc());
    assert_eq!(rt; first_wrong(rt.alloc(), &layout, NEAR_MISSES), None);
}

const NO_NODES: &str = "\
|other
n1|other
/n1/b1/meta/schema.cql|other
.n1/b1/meta/schema.cql|other
index/b1/meta/schema.cql|other
index/backup_index/b1/started_n1_00.timestamp|other
index/backup_index/b1/started_n1_+7.timestamp|other
index/backup_index/b1/started_n1_.timestamp|other
index/backup_index/b1/started_n1_18446744073709551616.timestamp|other
index/backup_index/b1/started_7.timestamp|other
index/backup_index/b1/started__7.timestamp|other
index/backup_index/b1/started_n1_7.timestamp/x|other
index/backup_index/b1/tokenmap_index.json|other
index/backup_index/b1/tokenmap_.json|other
index/backup_index/b1/manifest_n1|other
index/backup_index/data/tokenmap_n1.json|other
index/backup_index//tokenmap_n1.json|other
index/latest_backup/index/tokenmap.json|other
index/latest_backup/n1/backup_name.txt/|other";

#[test]
fn a_path_of_no_node_is_of_no_kind(rt: HostRuntime) {
    let layout = Layout::plain(rt.alloc());
    assert_eq!(rt; first_wrong(rt.alloc(), &layout, NO_NODES), None);
}

const ENTRIES: &str = "\
index/backup_index/b1/started_n1_0.timestamp|entry started 0|n1|b1
index/backup_index/b1/finished_n1_18446744073709551615.timestamp\
|entry finished 18446744073709551615|n1|b1
index/backup_index/b1/started_n1_07_7.timestamp|entry started 7|n1_07|b1
index/backup_index/b1/differential_n1_7.json|entry differential|n1_7.json|b1
index/backup_index/b1/tokenmap_n.1.json|entry tokenmap|n.1|b1
index/backup_index/b1/manifest_a.json.json|entry manifest|a.json|b1";

#[test]
fn the_last_underscore_divides_and_each_second_is_read(rt: HostRuntime) {
    let layout = Layout::plain(rt.alloc());
    assert_eq!(rt; first_wrong(rt.alloc(), &layout, ENTRIES), None);
}

const UNDER_A_PREFIX: &str = "\
a/b/n1/x|stray|n1
n1/x|other
a/b|other
a/bn1/x|other
a/b//n1/x|other
a/b/a/b/x|stray|a|b";

#[test]
fn a_prefix_is_text_before_the_path(rt: HostRuntime) -> Result<(), Fail> {
    let layout = Layout::new(rt.alloc(), "a/b")?;
    assert_eq!(rt; first_wrong(rt.alloc(), &layout, UNDER_A_PREFIX), None);
    Ok(())
}
