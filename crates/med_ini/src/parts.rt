// The three parts of a configuration, each read in the order of its checks.
ghost use Rattle.std.specs.Prelude.{◌≡◌, IfOk, IfErr};
ghost use Rattle.med_ini.specs.Options.{first_of, texts_of, Blames};
ghost use Rattle.med_ini.specs.Parts.{name_checks, number_checks, folder_checks, AreNames, AreNumbers, AreFolders};

use crate::checks::{
    base_of, bucket_of, folder_of, layout_of, node_of, number_of, stored_in, stored_over,
};
use crate::config::ConfigError;
use crate::{Ini, Overrides};
use med_base::{Fqdn, Layout};
use std::alloc::Global;

/// The path of the storage, and the names in it.
#[derive(Drop)]
pub(crate) struct Names {
    pub(crate) base: String,
    pub(crate) bucket: String,
    pub(crate) layout: Layout,
    pub(crate) node: Fqdn,
}

/// The age and the count that a purge keeps, and the grace period.
#[derive(Clone, Copy)]
pub(crate) struct Numbers {
    pub(crate) age_days: u32,
    pub(crate) count: u32,
    pub(crate) grace_days: u32,
}

/// The folders of nodes and of targets.
#[derive(Drop)]
pub(crate) struct Folders {
    pub(crate) nodes_root: String,
    pub(crate) targets_root: String,
}

/// The path and the names.
pub(crate) fn names_of(alloc: Global, ini: &Ini, over: &Overrides) -> Result<Names, ConfigError>
    ensures ok { IfOk result (AreNames (texts_of ini.now over.now)) }
    ensures err { IfErr result (Blames (first_of (name_checks (texts_of ini.now over.now)))) }
{
    let base = base_of(alloc, stored_in(ini, "base_path"))?;
    let bucket = bucket_of(alloc, stored_over(ini, &over.bucket, "bucket_name"))?;
    let layout = layout_of(alloc, stored_over(ini, &over.prefix, "prefix"))?;
    let node = node_of(alloc, stored_over(ini, &over.fqdn, "fqdn"))?;
    Ok(Names {
        base,
        bucket,
        layout,
        node,
    })
}

/// The numbers.
pub(crate) fn numbers_of(ini: &Ini) -> Result<Numbers, ConfigError>
    ensures ok { IfOk result (AreNumbers ini.now) }
    ensures err { IfErr result (Blames (first_of (number_checks ini.now))) }
{
    let age_days = number_of(ini, "max_backup_age", 0)?;
    let count = number_of(ini, "max_backup_count", 0)?;
    let grace_days = number_of(ini, "backup_grace_period_in_days", 10)?;
    Ok(Numbers {
        age_days,
        count,
        grace_days,
    })
}

/// The folders.
pub(crate) fn folders_of(alloc: Global, ini: &Ini) -> Result<Folders, ConfigError>
    ensures ok { IfOk result (AreFolders ini.now) }
    ensures err { IfErr result (Blames (first_of (folder_checks ini.now))) }
{
    let nodes_root = folder_of(alloc, ini, "nodes", "/var/lib/medusa/nodes")?;
    let targets_root = folder_of(alloc, ini, "targets", "/var/lib/medusa/targets")?;
    Ok(Folders {
        nodes_root,
        targets_root,
    })
}
