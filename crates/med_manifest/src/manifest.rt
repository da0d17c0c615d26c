// The files of a backup.
ghost use Rattle.std.specs.Prelude.{◌≡◌, Some, IfOk, IfErr, map};
ghost use Rattle.std.specs.Str.{IsUtf8};
ghost use Rattle.serde_json.specs.Read.{read};
ghost use Rattle.med_base.specs.Key.{AreRising};
ghost use Rattle.med_base.specs.Memory.{WhyIs};
ghost use Rattle.med_manifest.specs.Written.{manifest_data, manifest_text};
ghost use Rattle.med_manifest.specs.Manifest.{IsManifest, NamesNoOther, NamesThese};
ghost use Rattle.med_manifest.specs.Refusals.{IsRefused, IsNoManifest};

use crate::ManifestError;
use crate::records::records_of;
use crate::shape::files_named;
use crate::written::manifest_bytes;
use json::Scratch;
use med_base::{BackupName, FileKey, Fingerprint, Fqdn, Layout, NoMemory, ObjPath};
use std::alloc::Global;

/// A file of a backup: its key in the snapshot, the path of the object that holds it, and the size
/// and MD5 of its bytes.
#[derive(Drop)]
pub struct FileRecord {
    pub key: FileKey,
    pub path: ObjPath,
    pub fingerprint: Fingerprint,
}

/// The files of a backup.
#[derive(Drop)]
pub struct Manifest {
    pub files: Vec<FileRecord>,
}

impl Manifest {
    /// The canonical text of the manifest, in UTF-8. The files must be in order of their keys,
    /// without repeats. Where each path is one of the backup n of the node f, the text is a
    /// manifest of that backup with these files.
    pub fn write(&self, alloc: Global) -> Result<Vec<u8>, NoMemory>
        requires { AreRising (map (λ r. r.key) self.now.files.items) }
        ensures text { IfOk result (λ text. text.items ≡ manifest_text self.now.files.items) }
        ensures utf8 { IfOk result (λ text. IsUtf8 text.items) }
        ensures reads_back { IfOk result
            (λ text. read text.items ≡ Some (manifest_data self.now.files.items)) }
        ensures names { IfOk result (λ text. NamesThese text.items self.now.files.items) }
        ensures names_no_other { IfOk result
            (λ text. NamesNoOther text.items self.now.files.items) }
    {
        let text = manifest_bytes(alloc, self.files.as_slice())?;
        Ok(text)
    }
    /// The files of which these bytes are the manifest, in the order of the text, for the backup of
    /// that name and node. The text may have its keys in any order and others beside them; of a
    /// repeated key the last counts, and an MD5 has either spelling. Any other text is refused by
    /// its first fault, as `ManifestWhy` says.
    pub fn read(
        alloc: Global,
        layout: &Layout,
        node: &Fqdn,
        name: &BackupName,
        bytes: &[u8],
    ) -> Result<Manifest, ManifestError>
        ensures ok { IfOk result
            (λ m. IsManifest layout.now node.now name.now bytes.now m.files.items) }
        ensures err { IfErr result
            (WhyIs (IsRefused layout.now node.now name.now bytes.now)) }
        ensures refused { IfErr result
            (WhyIs (λ _. IsNoManifest layout.now node.now name.now bytes.now)) }
    {
        let mut scratch = Scratch::new(alloc);
        let named = files_named(alloc, bytes, &mut scratch)?;
        let files = records_of(alloc, layout, node, name, named.as_slice())?;
        Ok(Manifest { files })
    }
}
