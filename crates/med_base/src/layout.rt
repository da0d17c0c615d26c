// Where each object of a backup lies.
ghost use Rattle.std.specs.Prelude.{◌≡◌, [], None, IfOk, OnOk, IfErr, string_bytes};
ghost use Rattle.med_base.specs.Classify.{kind_of};
ghost use Rattle.med_base.specs.Kinds.{Meta};
ghost use Rattle.med_base.specs.Names.{Blames};
ghost use Rattle.med_base.specs.Prefix.{prefix_fault, before_of};
ghost use Rattle.med_base.specs.Layout.{own_path, meta_path, meta_file, backup_folder};

use crate::prefix::fault_in_prefix;
use crate::{BackupName, FileKey, Fqdn, NameError, NoMemory, ObjPath};
use std::alloc::{AllocError, Global};
use std::marker::Model;

/// The objects that tell of a backup beside its files.
#[derive(Clone, Copy)]
pub enum MetaKind {
    Schema,
    Differential,
    Tokenmap,
    Manifest,
}

/// The layout of a bucket under one prefix, seen as what stands before each path.
#[derive(Debug, Drop)]
pub struct Layout {
    before: String,
}

impl Model for Layout {
    ghost use Rattle.std.specs.Prelude.{List, ℕ, string_bytes};

    ghost Value = { List ℕ };

    ghost view = { λ l. string_bytes l.before };
}

impl Layout {
    /// The layout under a prefix: empty, or components without a leading dot joined by `/`, in at
    /// most 512 bytes.
    pub fn new(alloc: Global, prefix: &str) -> Result<Layout, NameError>
        ensures ok { IfOk result (λ layout. layout ≡ before_of prefix.now) }
        ensures fits { OnOk result (prefix_fault prefix.now ≡ None) }
        ensures err { IfErr result (Blames (prefix_fault prefix.now)) }
    {
        if let Some(at) = fault_in_prefix(prefix.as_bytes()) {
            return Err(NameError::BadName { at });
        }
        match text_before(alloc, prefix) {
            Ok(before) => Ok(Layout { before }),
            Err(AllocError) => Err(NameError::Memory),
        }
    }

    /// The layout under the empty prefix. It takes no memory.
    pub fn plain(alloc: Global) -> Layout
        ensures { result ≡ [] }
    {
        Layout {
            before: String::new(alloc),
        }
    }

    /// What stands before each path.
    pub fn before(&self) -> &str
        ensures { result.now ≡ self.now }
    {
        self.before.as_str()
    }

    /// An equal layout.
    pub fn copy(&self, alloc: Global) -> Result<Layout, NoMemory>
        ensures { IfOk result (λ layout. layout ≡ self.now) }
    {
        let before = String::from_str(alloc, self.before.as_str())?;
        Ok(Layout { before })
    }

    /// The path of a file that is this backup's own.
    pub fn own(
        &self,
        alloc: Global,
        f: &Fqdn,
        n: &BackupName,
        key: &FileKey,
    ) -> Result<ObjPath, NoMemory>
        ensures { IfOk result (λ path. path ≡ own_path self.now f.now n.now key.now) }
    {
        let folder = self.backup_folder(alloc, f, n)?;
        let file = key.text(alloc)?;
        let text = format!(in alloc; "{folder}data/{file}")?;
        Ok(ObjPath::from_string(text))
    }

    /// The path of an object that tells of a backup.
    pub fn meta(
        &self,
        alloc: Global,
        f: &Fqdn,
        n: &BackupName,
        kind: MetaKind,
    ) -> Result<ObjPath, NoMemory>
        ensures path { IfOk result (λ path. path ≡ meta_path self.now f.now n.now kind) }
        ensures kind { IfOk result (λ path. kind_of self.now path ≡ Meta f.now n.now kind) }
    {
        let before = self.before.as_str();
        let (f, n) = (f.as_str(), n.as_str());
        let file = meta_name(kind);
        let text = format!(in alloc; "{before}{f}/{n}/meta/{file}")?;
        Ok(ObjPath::from_string(text))
    }

    /// The folder of a backup, with a slash at its end.
    pub fn backup_folder(&self, alloc: Global, f: &Fqdn, n: &BackupName) -> Result<String, NoMemory>
        ensures { IfOk result (λ text. string_bytes text ≡ backup_folder self.now f.now n.now) }
    {
        let before = self.before.as_str();
        let (f, n) = (f.as_str(), n.as_str());
        Ok(format!(in alloc; "{before}{f}/{n}/")?)
    }
}

fn text_before(alloc: Global, prefix: &str) -> Result<String, AllocError>
    ensures { IfOk result (λ text. string_bytes text ≡ before_of prefix.now) }
{
    if prefix.is_empty() {
        return Ok(String::new(alloc));
    }
    format!(in alloc; "{prefix}/")
}

fn meta_name(kind: MetaKind) -> &'static str
    ensures { result.now ≡ meta_file kind }
{
    match kind {
        MetaKind::Schema => "schema.cql",
        MetaKind::Differential => "differential",
        MetaKind::Tokenmap => "tokenmap.json",
        MetaKind::Manifest => "manifest.json",
    }
}
