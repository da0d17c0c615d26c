// A bucket as a folder.
ghost use Rattle.std.specs.Prelude.{◌≡◌, [], true, None, Some, IfOk, IfSome, OnErr, OnOk, option_map, string_bytes};
ghost use Rattle.med_outside.specs.Pages.{CountsDown, IsPage, shown};
ghost use Rattle.med_outside.specs.Pieces.{AnswersPiece, EndsInRange, begun, with_piece, with_upload};
ghost use Rattle.med_outside.specs.State.{IsCalled, OnlyReads, bucket_of};
ghost use Rattle.med_base.specs.Part.{owner_of};
ghost use Rattle.med_outside.specs.Storage.{AnswersBytes, AnswersDelete, AnswersPut, AnswersStat};
ghost use Rattle.med_folder.specs.Listing.{AreShown, AreInOrder, EndsAtLast};
ghost use Rattle.med_folder.specs.Place.{bucket_folder, is_object_path};
ghost use Rattle.med_folder.specs.Untold.{untold, never};

use crate::faults::counted;
use crate::files::{make_folders, sync_way};
use crate::locks::Change;
use crate::pages::page_behind;
use crate::paths::{UNFINISHED, joined};
use crate::pieces::Reading;
use crate::seconds::second_or;
use crate::tree::Tree;
use crate::uploads::Unfinished;
use med_base::{Fingerprint, Layout, NoMemory, ObjPath, PathKind};
use med_outside::{Denied, Page, PageEnd, Piece, Stat, Storage};
use std::alloc::Global;
use std::fs::{File, Files};
use std::io;
use std::marker::Model;
use std::time::Clock;

/// A bucket whose objects are plain files: the object `p` is the file `<base>/<bucket>/p`. A put
/// writes a file under `<base>/<bucket>/.medusa-tmp`, which no listing shows, and renames it.
///
/// The first change of a path of a node takes a lock, which is held until the store is dropped.
/// Where another program holds it, each change of the node's paths is a fault.
#[derive(Drop)]
pub struct FolderStore<R> {
    tree: Tree<R>,
    folder: String,
    base: String,
    bucket: String,
    layout: Layout,
    opens: u64,
    last: u64,
    faults: u64,
    upload: Option<Unfinished>,
    reading: Option<Reading<File>>,
}

impl<R> Model for FolderStore<R> {
    ghost use Rattle.std.specs.Prelude.{◌≡◌, ◌⊎◌, [], string_bytes};
    ghost use Rattle.med_outside.specs.State.{bucket_of};
    ghost use Rattle.med_folder.specs.Place.{bucket_folder};
    ghost use Rattle.med_folder.specs.Untold.{FolderState};

    ghost Value = { FolderState };

    ghost view = { λ s. record {
      faults = s.faults;
      bucket = bucket_of (string_bytes s.base) (string_bytes s.bucket) s.layout s.opens;
      upload = s.upload;
    } };

    // The folder is that of the bucket that is open, or none is open.
    ghost invariant = { λ s. (string_bytes s.folder ≡ [])
        ⊎ (string_bytes s.folder ≡ bucket_folder (string_bytes s.base) (string_bytes s.bucket)) };
}

impl<R> FolderStore<R> {
    /// A store that isn't open yet: until then each put and listing is a fault. It takes no memory.
    pub fn new(alloc: Global, rt: R) -> FolderStore<R>
        ensures { result ≡ record { faults = 0; bucket = bucket_of [] [] [] 0; upload = None } }
    {
        FolderStore {
            tree: Tree::new(alloc, rt),
            folder: String::new(alloc),
            base: String::new(alloc),
            bucket: String::new(alloc),
            layout: Layout::plain(alloc),
            opens: 0,
            last: 0,
            faults: 0,
            upload: None,
            reading: None,
        }
    }
}

// Makes the bucket's folder and its folder of unfinished files, where they aren't there. It
// answers the bucket's.
fn open_bucket<R: Files + AllocGlobal>(
    rt: &R,
    alloc: Global,
    base: &str,
    bucket: &str,
) -> io::Result<String>
    ensures { IfOk result (λ folder. string_bytes folder ≡ bucket_folder base.now bucket.now) }
{
    let folder = joined(alloc, base, bucket)?;
    make_folders(rt, folder.as_str())?;
    let unfinished = joined(alloc, folder.as_str(), UNFINISHED)?;
    make_folders(rt, unfinished.as_str())?;
    sync_way(rt, base, unfinished.as_str())?;
    Ok(folder)
}

// The node to which a path belongs under a layout, if it belongs to one.
fn owner_of<'a>(layout: &Layout, path: &'a ObjPath) -> Option<&'a str>
    ensures { option_map (λ owner. owner.now) result ≡ owner_of layout.now path.now }
{
    match layout.classify(path) {
        PathKind::Shared { owner, .. } => Some(owner),
        PathKind::Own { owner, .. } => Some(owner),
        PathKind::Meta { owner, .. } => Some(owner),
        PathKind::Stray { owner, .. } => Some(owner),
        PathKind::IndexEntry { owner, .. } => Some(owner),
        PathKind::Latest { owner, .. } => Some(owner),
        PathKind::Other => None,
    }
}

impl<R: Files<File = File> + Clock + AllocGlobal + Clone + Drop> Storage for FolderStore<R> {
    ghost state = { untold };

    ghost stood = { λ _. never };

    fn open(
        &mut self,
        alloc: Global,
        base: &str,
        bucket: &str,
        prefix: &Layout,
    ) -> Result<(), Denied> {
        self.reading = None;
        let layout = prefix.copy(alloc)?;
        let base_text = String::from_str(alloc, base)?;
        let bucket_text = String::from_str(alloc, bucket)?;
        let outcome = open_bucket(&self.tree.rt, alloc, base, bucket);
        self.folder = counted(&mut self.faults, outcome)?;
        self.base = base_text;
        self.bucket = bucket_text;
        self.layout = layout;
        self.opens = self.opens.saturating_add(1);
        Ok(())
    }

    fn now(&mut self) -> u64 {
        self.last = second_or(&self.tree.rt, self.last);
        self.last
    }

    /// As the trait says. A path that isn't an object's is a fault, and so is a link in place of
    /// the file or on the way.
    fn stat(&mut self, alloc: Global, path: &ObjPath) -> Result<Option<Stat>, Denied>
        ensures answer { IfOk result (AnswersStat path.now (untold self.old).content) }
        ensures looks { OnlyReads (untold self.old) (untold self.new) never never }
        ensures called { IsCalled (untold self.old) (untold self.new) result }
        ensures place { OnOk result (is_object_path path.now ≡ true) }
    {
        let outcome = self.tree.stat(alloc, self.folder.as_str(), path.as_str());
        counted(&mut self.faults, outcome)
    }

    /// As the trait says, with the faults of `stat`.
    fn get(&mut self, alloc: Global, path: &ObjPath) -> Result<Option<Vec<u8>>, Denied>
        ensures answer { IfOk result
            (λ found. AnswersBytes path.now (untold self.old).content
            (option_map (λ bytes. bytes.items) found)) }
        ensures looks { OnlyReads (untold self.old) (untold self.new) never never }
        ensures called { IsCalled (untold self.old) (untold self.new) result }
        ensures place { OnOk result (is_object_path path.now ≡ true) }
    {
        let outcome = self.tree.get(alloc, self.folder.as_str(), path.as_str());
        counted(&mut self.faults, outcome)
    }

    /// As the trait says. A path that isn't an object's is a fault, and so is a link on the way.
    fn put(&mut self, alloc: Global, path: &ObjPath, bytes: &[u8]) -> Result<u64, Denied>
        ensures answer { AnswersPut path.now bytes.now result (untold self.old) (untold self.new)
            never never }
        ensures called { IsCalled (untold self.old) (untold self.new) result }
        ensures place { OnOk result (is_object_path path.now ≡ true) }
    {
        self.reading = None;
        let second = self.now();
        let change = Change {
            owner: owner_of(&self.layout, path),
            is_meanwhile: self.upload.is_some(),
        };
        let bucket = self.folder.as_str();
        let outcome = self
            .tree
            .put(alloc, bucket, change, path.as_str(), bytes, second);
        counted(&mut self.faults, outcome)?;
        Ok(second)
    }

    /// As the trait says, with the faults of `stat`. Only a plain file is removed; folders stay.
    fn delete(&mut self, alloc: Global, path: &ObjPath) -> Result<(), Denied>
        ensures answer { AnswersDelete path.now result (untold self.old) (untold self.new)
            never never }
        ensures called { IsCalled (untold self.old) (untold self.new) result }
        ensures place { OnOk result (is_object_path path.now ≡ true) }
    {
        self.reading = None;
        let change = Change {
            owner: owner_of(&self.layout, path),
            is_meanwhile: self.upload.is_some(),
        };
        let bucket = self.folder.as_str();
        let outcome = self.tree.delete(alloc, bucket, change, path.as_str());
        counted(&mut self.faults, outcome)
    }

    /// As the trait says. Only plain files are listed, and no link is followed. Where the files
    /// behind the end of a page aren't as many as were left there, it is a fault.
    fn list_page(
        &mut self,
        alloc: Global,
        under: &str,
        after: Option<&PageEnd>,
    ) -> Result<Page, Denied>
        ensures page { IfOk result
            (λ page. IfSome (untold self.old).content
            (λ c. IsPage under.now (shown after.entry) c page)) }
        ensures counts { IfOk result (CountsDown (shown after.entry)) }
        ensures looks { OnlyReads (untold self.old) (untold self.new) never never }
        ensures called { IsCalled (untold self.old) (untold self.new) result }
        ensures shown { IfOk result
            (λ page. AreShown under.now (shown after.entry) page.entries.items) }
        ensures order { IfOk result (λ page. AreInOrder page.entries.items) }
        ensures path { IfOk result EndsAtLast }
    {
        let outcome = page_behind(&self.tree.rt, alloc, self.folder.as_str(), under, after);
        counted(&mut self.faults, outcome)
    }

    fn make_room(&mut self, _alloc: Global, _changes: u64) -> Result<(), NoMemory> {
        Ok(())
    }

    /// As the trait says, with the faults of `stat`. The file stays open behind a full piece: the
    /// next piece of the same object from there on is read from it. A piece from elsewhere closes
    /// it, and so do `open`, `put`, `delete` and `commit`.
    fn get_piece(
        &mut self,
        alloc: Global,
        path: &ObjPath,
        from: u64,
    ) -> Result<Option<Piece>, Denied>
        ensures answer { IfOk result (AnswersPiece path.now from (untold self.old).content) }
        ensures range { IfOk result (λ found. IfSome found (EndsInRange from)) }
        ensures looks { OnlyReads (untold self.old) (untold self.new) never never }
        ensures called { IsCalled (untold self.old) (untold self.new) result }
        ensures place { OnOk result (is_object_path path.now ≡ true) }
    {
        let reading = self.reading.take();
        let bucket = self.folder.as_str();
        let outcome = self.tree.piece(alloc, bucket, reading, path.as_str(), from);
        match counted(&mut self.faults, outcome)? {
            Some((piece, reading)) => {
                self.reading = reading;
                Ok(Some(piece))
            }
            None => Ok(None),
        }
    }

    /// As the trait says, with the faults of `put`.
    fn begin(&mut self, alloc: Global, path: &ObjPath) -> Result<(), Denied>
        ensures ok { OnOk result
            (OnlyReads (with_upload (Some (begun path.now)) (untold self.old)) (untold self.new)
            never never) }
        ensures err { OnErr result (OnlyReads (untold self.old) (untold self.new) never never) }
        ensures called { IsCalled (untold self.old) (untold self.new) result }
        ensures place { OnOk result (is_object_path path.now ≡ true) }
    {
        let change = Change {
            owner: owner_of(&self.layout, path),
            is_meanwhile: false,
        };
        let bucket = self.folder.as_str();
        let outcome = self.tree.begin(alloc, bucket, change, path.as_str());
        self.upload = Some(counted(&mut self.faults, outcome)?);
        Ok(())
    }

    /// As the trait says. Where there is no upload, or its fingerprint was told, it is a fault.
    fn append(&mut self, _alloc: Global, piece: &Piece) -> Result<(), Denied>
        ensures ok { OnOk result
            (OnlyReads (with_upload (with_piece piece.now (untold self.old).upload)
            (untold self.old)) (untold self.new) never never) }
        ensures err { OnErr result
            (OnlyReads (with_upload None (untold self.old)) (untold self.new) never never) }
        ensures called { IsCalled (untold self.old) (untold self.new) result }
    {
        let outcome = self.tree.append(self.upload.take(), piece.bytes());
        self.upload = Some(counted(&mut self.faults, outcome)?);
        Ok(())
    }

    /// As the trait says. A piece that is appended behind it is a fault.
    fn uploaded(&mut self) -> Option<Fingerprint> {
        let Some(upload) = self.upload.take() else {
            return None;
        };
        let (upload, fingerprint) = upload.ended();
        self.upload = Some(upload);
        Some(fingerprint)
    }

    /// As the trait says, with the faults of `put`. Where there is no upload, or its file hasn't as
    /// many bytes as were appended, it is a fault.
    fn commit(&mut self, alloc: Global) -> Result<u64, Denied>
        ensures answer { IfSome (untold self.old).upload
            (λ u. AnswersPut u.path u.bytes result (with_upload None (untold self.old))
            (untold self.new) never never) }
        ensures called { IsCalled (untold self.old) (untold self.new) result }
    {
        self.reading = None;
        let second = self.now();
        let upload = self.upload.take();
        let outcome = self
            .tree
            .commit(alloc, self.folder.as_str(), upload, second);
        counted(&mut self.faults, outcome)?;
        Ok(second)
    }

    fn drop_upload(&mut self) {
        if let Some(upload) = self.upload.take() {
            self.tree.give_up(upload);
        }
    }

    ghost counts_now = { λ _ _ _ _ e. cc e };

    ghost only_now = { λ _ _ e. absurd e };

    ghost widens = { λ _ _ _ _ _ _ _ _ e. absurd e };

    ghost told = { λ _ _ e. cc e };
}
