// The snapshot of a node as folders.
ghost use Rattle.std.specs.Prelude.{◌≡◌, ◌++◌, true, IfOk, OnOk, string_bytes};
ghost use Rattle.std.specs.List.{list_all};
ghost use Rattle.med_base.specs.Prefix.{parts};
ghost use Rattle.med_outside.specs.Pieces.{EndsInRange};
ghost use Rattle.med_folder.specs.Place.{is_name};
ghost use Rattle.med_folder.specs.Snapshots.{file_path};
ghost use Rattle.med_folder.specs.Untold.{untold_snap};

use crate::faults::counted;
use crate::files::{open_plain, read_plain};
use crate::keys::{keys_of_node, table_folder};
use crate::paths::{has_plain_parts, is_name, joined, parent_of};
use crate::pieces::{Reading, going_on, read_on, reading_from};
use crate::ways::{Ways, check_plain};
use med_base::FileKey;
use med_outside::{Denied, OpenedFor, Piece, RawKey, Snap};
use std::alloc::{AllocError, Global};
use std::fs::Files;
use std::io;
use std::io::ErrorKind;
use std::marker::Model;

/// Where the snapshot of a node lies: the folder of the node, and the tag.
#[derive(Drop)]
pub(crate) struct NodeFolder<R> {
    rt: R,
    node: String,
    tag: String,
}

/// The folder of a node, which need not be there.
pub(crate) fn node_folder<R: Clone + Drop>(
    rt: &R,
    alloc: Global,
    root: &str,
    node: &str,
    tag: &str,
) -> io::Result<NodeFolder<R>>
    ensures names { OnOk result (is_name tag.now ≡ true) }
{
    if !is_name(tag.as_bytes()) {
        return Err(io::Error::from(ErrorKind::InvalidFilename));
    }
    let node = joined(alloc, root, node)?;
    let tag = String::from_str(alloc, tag)?;
    let rt = rt.clone()?;
    Ok(NodeFolder { rt, node, tag })
}

/// What lies of one node under `data/<keyspace>/<table>/snapshots/<tag>/`. A folder there whose
/// name begins with a dot is a secondary index: the folder `.i` of the table `t-1` is listed as the
/// table `t-1.i`. What else isn't a plain file is passed over.
#[derive(Drop)]
pub struct FolderSnap<R: Files> {
    folder: NodeFolder<R>,
    opened: OpenedFor,
    faults: u64,
    reading: Option<Reading<R::File>>,
    walked: Walked,
}

impl<R: Files> Model for FolderSnap<R> {
    ghost use Rattle.med_folder.specs.Untold.{FolderSnapState};

    ghost Value = { FolderSnapState };

    ghost view = { λ s. record { faults = s.faults; of = s.opened } };
}

impl<R: Files> FolderSnap<R> {
    pub(crate) fn new(alloc: Global, folder: NodeFolder<R>, opened: OpenedFor) -> FolderSnap<R>
        ensures { result ≡ record { faults = 0; of = opened } }
    {
        FolderSnap {
            folder,
            opened,
            faults: 0,
            reading: None,
            walked: Walked {
                ways: Ways::none(alloc),
                last: None,
            },
        }
    }

    pub(crate) fn fault_count(&self) -> u64
        ensures { result ≡ self.now.faults }
    {
        self.faults
    }

    pub(crate) fn opened_for(&self) -> &OpenedFor
        ensures { result.now ≡ self.now.of }
    {
        &self.opened
    }
}

// The path of a file below the folder of the node's data. A table is divided before its first dot
// into its own folder and that of an index.
fn path_of(alloc: Global, tag: &str, key: &FileKey) -> Result<String, AllocError>
    ensures { IfOk result (λ path. string_bytes path ≡ file_path tag.now key.now) }
{
    let keyspace = key.keyspace.as_str();
    let table = key.table.as_str();
    let file = key.file.as_str();
    let Some((table, index)) = table.split_once('.') else {
        let folder = table_folder(alloc, keyspace, table, tag)?;
        return joined(alloc, folder.as_str(), file);
    };
    let mut folder = table_folder(alloc, keyspace, table, tag)?;
    folder.push_str("/.")?;
    folder.push_str(index)?;
    joined(alloc, folder.as_str(), file)
}

/// The folders of a snapshot to which a plain way was found, and the one in which the file lay that
/// was opened last.
#[derive(Drop)]
struct Walked {
    ways: Ways,
    last: Option<String>,
}

impl Walked {
    fn is_last(&self, folder: &str) -> bool {
        match &self.last {
            Some(last) => last.as_str() == folder,
            None => false,
        }
    }
}

// The plain file below a folder, which its path doesn't leave. The way to its own folder is looked
// at where the last file that was opened lay in another one.
fn open_below<R: Files>(
    rt: &R,
    alloc: Global,
    top: &str,
    path: &str,
    walked: &mut Walked,
) -> io::Result<R::File> {
    let folder = parent_of(path);
    let is_last = walked.is_last(folder);
    if !is_last {
        check_plain(walked.ways.find(rt, alloc, top, folder)?)?;
    }
    let file = open_plain(rt, joined(alloc, top, path)?.as_str())?;
    if !is_last {
        walked.last = Some(String::from_str(alloc, folder)?);
    }
    Ok(file)
}

// The file of a key at a place: the one that is being read, where its next piece begins there, or
// the file opened anew.
fn reading_at<R: Files>(
    folder: &NodeFolder<R>,
    alloc: Global,
    reading: Option<Reading<R::File>>,
    key: &FileKey,
    from: u64,
    walked: &mut Walked,
) -> io::Result<Reading<R::File>>
    ensures names { OnOk result
        (list_all is_name (parts (file_path (string_bytes folder.now.tag) key.now)) ≡ true) }
    ensures path { IfOk result
        (λ reading. string_bytes reading.path
        ≡ file_path (string_bytes folder.now.tag) key.now) }
    ensures place { IfOk result (λ reading. reading.place ≡ from) }
{
    let path = path_of(alloc, folder.tag.as_str(), key)?;
    if !has_plain_parts(path.as_bytes()) {
        return Err(io::Error::from(ErrorKind::InvalidFilename));
    }
    if let Some(reading) = going_on(reading, path.as_str(), from) {
        return Ok(reading);
    }
    let data = joined(alloc, folder.node.as_str(), "data")?;
    let file = open_below(&folder.rt, alloc, data.as_str(), path.as_str(), walked)?;
    reading_from(file, path, from)
}

fn read_key<R: Files>(
    folder: &NodeFolder<R>,
    alloc: Global,
    reading: Option<Reading<R::File>>,
    key: &FileKey,
    from: u64,
    walked: &mut Walked,
) -> io::Result<(Piece, Option<Reading<R::File>>)>
    ensures names { OnOk result
        (list_all is_name (parts (file_path (string_bytes folder.now.tag) key.now)) ≡ true) }
    ensures range { IfOk result (λ read. EndsInRange from read.0) }
{
    read_on(
        alloc,
        reading_at(folder, alloc, reading, key, from, walked)?,
    )
}

// The bytes of a file in the folder of the node.
fn read_of_node<R: Files>(
    folder: &NodeFolder<R>,
    alloc: Global,
    name: &str,
) -> io::Result<Vec<u8>> {
    let path = joined(alloc, folder.node.as_str(), name)?;
    read_plain(&folder.rt, alloc, path.as_str())
}

impl<R: Files + AllocGlobal + Clone + Drop> Snap for FolderSnap<R> {
    ghost state = { untold_snap };

    fn keys(&mut self, alloc: Global) -> Result<Vec<RawKey>, Denied> {
        self.reading = None;
        let folder = &self.folder;
        let (node, tag) = (folder.node.as_str(), folder.tag.as_str());
        let outcome = keys_of_node(&folder.rt, alloc, node, tag, &mut self.walked.ways);
        counted(&mut self.faults, outcome)
    }

    /// As the trait says. The file stays open behind a full piece: the next piece of the same key
    /// from there on is read from it, and every other call closes it. The way to a file's folder is
    /// looked at where the file that was opened last lay in another one.
    fn read_piece(&mut self, alloc: Global, key: &FileKey, from: u64) -> Result<Piece, Denied> {
        let reading = self.reading.take();
        let outcome = read_key(&self.folder, alloc, reading, key, from, &mut self.walked);
        let (piece, reading) = counted(&mut self.faults, outcome)?;
        self.reading = reading;
        Ok(piece)
    }

    fn schema(&mut self, alloc: Global) -> Result<Vec<u8>, Denied> {
        self.reading = None;
        let outcome = read_of_node(&self.folder, alloc, "schema.cql");
        counted(&mut self.faults, outcome)
    }

    fn ring(&mut self, alloc: Global) -> Result<Vec<u8>, Denied> {
        self.reading = None;
        let outcome = read_of_node(&self.folder, alloc, "ring.json");
        counted(&mut self.faults, outcome)
    }

    ghost listed_once = { λ _. tt };
}
