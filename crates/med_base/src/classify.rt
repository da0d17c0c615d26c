// The kind of a path.
ghost use Rattle.std.specs.Prelude.{◌≡◌, is_none, option_map, unwrap_or, option_and_then, Some, None};
ghost use Rattle.med_base.specs.Classify.{key_of, meta_of, pair_of, backup_kind, node_kind, entry_kind, latest_kind, index_kind, kind_below, kind_of, is_component, is_data};
ghost use Rattle.med_base.specs.Kinds.{as_data, Other};
ghost use Rattle.med_base.specs.KindRelation.{IsOfKind};
ghost use Rattle.med_base.specs.Names.{fqdn_fault, backup_fault};
ghost use Rattle.med_base.specs.Prefix.{parts};

use crate::component::fault_in_component;
use crate::entries::{entry_named, latest_named, meta_named};
use crate::names::{fault_in_backup, fault_in_fqdn};
use crate::pieces::{after, cut, pair};
use crate::{Layout, ObjPath, PathKind};

impl Layout {
    /// What a path is under this layout. It takes no memory.
    pub fn classify<'a>(&self, path: &'a ObjPath) -> PathKind<'a>
        ensures kind { as_data result ≡ kind_of self.now path.now }
        ensures told { IsOfKind self.now path.now (as_data result) }
    {
        match after(path.as_str(), self.before()) {
            Some(text) => below(text),
            None => PathKind::Other,
        }
    }

    /// Whether the path is that of a data object: a file that backups share, or one backup's own.
    /// It takes no memory.
    pub fn is_data(&self, path: &ObjPath) -> bool
        ensures { result ≡ is_data self.now path.now }
    {
        match self.classify(path) {
            PathKind::Shared { .. } | PathKind::Own { .. } => true,
            PathKind::Meta { .. } | PathKind::IndexEntry { .. } => false,
            PathKind::Latest { .. } | PathKind::Stray { .. } | PathKind::Other => false,
        }
    }
}

fn is_component(text: &str) -> bool
    ensures { result ≡ is_component text.now }
{
    fault_in_component(text.as_bytes()).is_none()
}

fn is_fqdn(text: &str) -> bool
    ensures { result ≡ is_none (fqdn_fault text.now) }
{
    fault_in_fqdn(text).is_none()
}

fn is_backup(text: &str) -> bool
    ensures { result ≡ is_none (backup_fault text.now) }
{
    fault_in_backup(text).is_none()
}

// The keyspace, the table and the name of a file in a folder of data.
fn key_in(text: &str) -> Option<(&str, &str, &str)>
    ensures { option_map (λ k. record { keyspace = k.0.now; table = k.1.now; file = k.2.now })
        result ≡ key_of (parts text.now) }
{
    let (keyspace, Some(rest)) = cut(text) else {
        return None;
    };
    let (table, file) = pair(rest)?;
    if is_component(keyspace) && is_component(table) && is_component(file) {
        Some((keyspace, table, file))
    } else {
        None
    }
}

// In the folder of a backup.
fn in_backup<'a>(owner: &'a str, backup: &'a str, rest: &'a str) -> PathKind<'a>
    ensures { as_data result ≡ backup_kind owner.now backup.now (parts rest.now) }
{
    let stray = PathKind::Stray {
        owner,
        backup: Some(backup),
    };
    let (part, Some(rest)) = cut(rest) else {
        return stray;
    };
    if part == "data" {
        return match key_in(rest) {
            Some((keyspace, table, file)) => PathKind::Own {
                owner,
                backup,
                keyspace,
                table,
                file,
            },
            None => stray,
        };
    }
    if part != "meta" {
        return stray;
    }
    match meta_named(rest) {
        Some(kind) => PathKind::Meta {
            owner,
            backup,
            kind,
        },
        None => stray,
    }
}

// In the folder of a node.
fn in_node<'a>(owner: &'a str, rest: &'a str) -> PathKind<'a>
    ensures { as_data result ≡ node_kind owner.now (parts rest.now) }
{
    let stray = PathKind::Stray {
        owner,
        backup: None,
    };
    let (part, Some(rest)) = cut(rest) else {
        return stray;
    };
    if part == "data" {
        return match key_in(rest) {
            Some((keyspace, table, file)) => PathKind::Shared {
                owner,
                keyspace,
                table,
                file,
            },
            None => stray,
        };
    }
    if is_backup(part) {
        in_backup(owner, part, rest)
    } else {
        stray
    }
}

// In the index, of a backup.
fn entry_in(text: &str) -> Option<PathKind<'_>>
    ensures { option_map as_data result ≡ option_and_then entry_kind (pair_of (parts text.now)) }
{
    let (backup, name) = pair(text)?;
    let (owner, kind) = entry_named(name)?;
    if is_backup(backup) && is_fqdn(owner) {
        Some(PathKind::IndexEntry {
            owner,
            backup,
            kind,
        })
    } else {
        None
    }
}

// Among the latest backups, of a node.
fn latest_in(text: &str) -> Option<PathKind<'_>>
    ensures { option_map as_data result ≡ option_and_then latest_kind (pair_of (parts text.now)) }
{
    let (owner, name) = pair(text)?;
    let kind = latest_named(name)?;
    if is_fqdn(owner) {
        Some(PathKind::Latest { owner, kind })
    } else {
        None
    }
}

// In the folder of the index.
fn in_index(text: &str) -> PathKind<'_>
    ensures { as_data result ≡ index_kind (parts text.now) }
{
    let (part, Some(rest)) = cut(text) else {
        return PathKind::Other;
    };
    let found = match part {
        "backup_index" => entry_in(rest),
        "latest_backup" => latest_in(rest),
        _ => None,
    };
    found.unwrap_or(PathKind::Other)
}

// Below what stands before each path.
fn below(text: &str) -> PathKind<'_>
    ensures { as_data result ≡ kind_below (parts text.now) }
{
    let (part, Some(rest)) = cut(text) else {
        return PathKind::Other;
    };
    if part == "index" {
        in_index(rest)
    } else if is_fqdn(part) {
        in_node(part, rest)
    } else {
        PathKind::Other
    }
}
