// The paths of shared files, of the index and of the latest backups, and the other folders.
ghost use Rattle.std.specs.Prelude.{◌≡◌, IfOk, OnOk, string_bytes};
ghost use Rattle.med_base.specs.Classify.{kind_of};
ghost use Rattle.med_base.specs.Kinds.{Entry, Latest, IsFqdn, IsBackupName, HasSecond};
ghost use Rattle.med_base.specs.Layout.{shared_path, entry_file, entry_path, latest_file, latest_path, node_folder, index_folder};

use crate::{BackupName, FileKey, Fqdn, IndexKind, LatestKind, Layout, NoMemory, ObjPath};
use std::alloc::Global;

impl Layout {
    /// The path of a file that the backups of a node share.
    pub fn shared(&self, alloc: Global, f: &Fqdn, key: &FileKey) -> Result<ObjPath, NoMemory>
        ensures { IfOk result (λ path. path ≡ shared_path self.now f.now key.now) }
    {
        let folder = self.node_folder(alloc, f)?;
        let file = key.text(alloc)?;
        let text = format!(in alloc; "{folder}data/{file}")?;
        Ok(ObjPath::from_string(text))
    }

    /// The path of an entry of the index.
    pub fn index_entry(
        &self,
        alloc: Global,
        f: &Fqdn,
        n: &BackupName,
        kind: IndexKind,
    ) -> Result<ObjPath, NoMemory>
        ensures path { IfOk result (λ path. path ≡ entry_path self.now f.now n.now kind) }
        ensures kind { IfOk result (λ path. kind_of self.now path ≡ Entry f.now n.now kind) }
    {
        let folder = self.index_folder(alloc, n)?;
        let file = entry_name(alloc, f, kind)?;
        let text = format!(in alloc; "{folder}{file}")?;
        Ok(ObjPath::from_string(text))
    }

    /// The path of an object that tells of the latest backup of a node.
    pub fn latest(&self, alloc: Global, f: &Fqdn, kind: LatestKind) -> Result<ObjPath, NoMemory>
        ensures path { IfOk result (λ path. path ≡ latest_path self.now f.now kind) }
        ensures kind { IfOk result (λ path. kind_of self.now path ≡ Latest f.now kind) }
    {
        let before = self.before();
        let f = f.as_str();
        let file = latest_name(kind);
        let text = format!(in alloc; "{before}index/latest_backup/{f}/{file}")?;
        Ok(ObjPath::from_string(text))
    }

    /// The folder of a node, with a slash at its end.
    pub fn node_folder(&self, alloc: Global, f: &Fqdn) -> Result<String, NoMemory>
        ensures { IfOk result (λ text. string_bytes text ≡ node_folder self.now f.now) }
    {
        let before = self.before();
        let f = f.as_str();
        Ok(format!(in alloc; "{before}{f}/")?)
    }

    /// The folder of a backup in the index, with a slash at its end.
    pub fn index_folder(&self, alloc: Global, n: &BackupName) -> Result<String, NoMemory>
        ensures text { IfOk result (λ text. string_bytes text ≡ index_folder self.now n.now) }
        ensures name { OnOk result (IsBackupName n.now) }
    {
        let before = self.before();
        let n = n.as_str();
        Ok(format!(in alloc; "{before}index/backup_index/{n}/")?)
    }
}

fn entry_name(alloc: Global, f: &Fqdn, kind: IndexKind) -> Result<String, NoMemory>
    ensures text { IfOk result (λ text. string_bytes text ≡ entry_file f.now kind) }
    ensures node { OnOk result (IsFqdn f.now) }
    ensures second { OnOk result (HasSecond kind) }
{
    let f = f.as_str();
    Ok(match kind {
        IndexKind::Tokenmap => format!(in alloc; "tokenmap_{f}.json")?,
        IndexKind::Manifest => format!(in alloc; "manifest_{f}.json")?,
        IndexKind::Started(second) => format!(in alloc; "started_{f}_{second}.timestamp")?,
        IndexKind::Finished(second) => format!(in alloc; "finished_{f}_{second}.timestamp")?,
        IndexKind::Differential => format!(in alloc; "differential_{f}")?,
    })
}

fn latest_name(kind: LatestKind) -> &'static str
    ensures { result.now ≡ latest_file kind }
{
    match kind {
        LatestKind::Name => "backup_name.txt",
        LatestKind::Tokenmap => "tokenmap.json",
    }
}
