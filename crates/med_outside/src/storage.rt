// A bucket of objects.
ghost use Rattle.std.specs.Prelude.{◌≡◌, ◌≤◌, ℕ, Some, None, is_some, IsTrue, IfOk, IfSome, OnOk, OnErr, option_map};
ghost use Rattle.med_base.specs.Content.{Content};
ghost use Rattle.med_base.specs.Fingerprint.{fingerprint_of};
ghost use Rattle.med_outside.specs.State.{State, History, Upload, OnlyReads, IsCalled, IsAtRest, IsNoData, MayChange, opened, with_room};
ghost use Rattle.med_outside.specs.Pages.{CountsDown, CountsRight, IsPage, shown};
ghost use Rattle.med_outside.specs.Pieces.{AnswersPiece, EndsInRange, begun, with_piece, with_upload};
ghost use Rattle.med_outside.specs.Storage.{IsToldAs, AnswersStat, AnswersBytes, AnswersPut, AnswersDelete};

use crate::{Denied, Piece};
use med_base::{Fingerprint, Layout, NoMemory, ObjPath};
use std::alloc::Global;

/// What a look at an object answers. Seconds are whole ones since 1970-01-01T00:00:00Z.
#[derive(Clone, Copy, Debug, PartialEq, Eq)]
pub struct Stat {
    pub fingerprint: Fingerprint,
    pub second: u64,
}

/// An object as a listing has it: its size in bytes, and when it was stored.
#[derive(Debug, Drop)]
pub struct Entry {
    pub path: ObjPath,
    pub size: u64,
    pub second: u64,
}

/// Where a page ends that isn't the last one.
#[derive(Debug, Drop)]
pub struct PageEnd {
    /// The last path of the page.
    pub path: ObjPath,
    /// How many entries are left. It isn't 0.
    pub left: u64,
}

/// Some entries of a listing in a row.
#[derive(Debug, Drop)]
pub struct Page {
    pub entries: Vec<Entry>,
    /// `None` where no entry is left.
    pub end: Option<PageEnd>,
}

pub trait Storage: Sized {
    /// What it means, but for the contents that stood.
    ghost state: { Self → State };

    /// What it held at some moment from one step to another.
    ghost stood: { Self → History };

    /// Makes the bucket of the name below the base ready, under a layout. It changes no content.
    /// After a refusal what was open before is open still.
    fn open(
        &mut self,
        alloc: Global,
        base: &str,
        bucket: &str,
        prefix: &Layout,
    ) -> Result<(), Denied>
        requires { IsAtRest (state self.old) }
        ensures ok { OnOk result
            (OnlyReads (opened base.now bucket.now prefix.now (state self.old)) (state self.new)
            (stood self.old) (stood self.new)) }
        ensures err { OnErr result
            (OnlyReads (state self.old) (state self.new) (stood self.old) (stood self.new)) }
        ensures called { IsCalled (state self.old) (state self.new) result };

    /// The present second. It takes no memory.
    fn now(&mut self) -> u64
        ensures value { IsToldAs (state self.old).second result }
        ensures same { state self.new ≡ state self.old }
        ensures looks { OnlyReads (state self.old) (state self.new) (stood self.old)
            (stood self.new) };

    /// The fingerprint and the second of the object, and `None` exactly where no object has the
    /// path.
    fn stat(&mut self, alloc: Global, path: &ObjPath) -> Result<Option<Stat>, Denied>
        ensures answer { IfOk result (AnswersStat path.now (state self.old).content) }
        ensures looks { OnlyReads (state self.old) (state self.new) (stood self.old)
            (stood self.new) }
        ensures called { IsCalled (state self.old) (state self.new) result };

    /// The bytes of the object, which isn't a data object, and `None` exactly where no object has the
    /// path.
    fn get(&mut self, alloc: Global, path: &ObjPath) -> Result<Option<Vec<u8>>, Denied>
        requires { IsNoData path.now (state self.old).terms }
        ensures answer { IfOk result
            (λ found. AnswersBytes path.now (state self.old).content
            (option_map (λ bytes. bytes.items) found)) }
        ensures looks { OnlyReads (state self.old) (state self.new) (stood self.old)
            (stood self.new) }
        ensures called { IsCalled (state self.old) (state self.new) result };

    /// Stores the bytes under the path, which isn't that of a data object, in place of an object that
    /// was there, with the second that `now` gives, and answers that second. After `Failed` the
    /// object was stored or it wasn't; after `Memory` it wasn't.
    fn put(&mut self, alloc: Global, path: &ObjPath, bytes: &[u8]) -> Result<u64, Denied>
        requires free { MayChange path.now (state self.old).terms }
        requires no_data { IsNoData path.now (state self.old).terms }
        ensures answer { AnswersPut path.now bytes.now result (state self.old) (state self.new)
            (stood self.old) (stood self.new) }
        ensures called { IsCalled (state self.old) (state self.new) result };

    /// Removes the object. It is fine where no object has the path. After `Failed` the object was
    /// removed or it wasn't; after `Memory`, which comes only where there is no room or none is
    /// told, it wasn't.
    fn delete(&mut self, alloc: Global, path: &ObjPath) -> Result<(), Denied>
        requires { MayChange path.now (state self.old).terms }
        ensures answer { AnswersDelete path.now result (state self.old) (state self.new)
            (stood self.old) (stood self.new) }
        ensures called { IsCalled (state self.old) (state self.new) result };

    /// The next objects whose path begins with a text, in byte order of their paths: the first
    /// 1,000, or all where there are no more, of those behind the end of a page.
    fn list_page(
        &mut self,
        alloc: Global,
        under: &str,
        after: Option<&PageEnd>,
    ) -> Result<Page, Denied>
        requires { CountsRight under.now (shown after) (state self.old).content }
        ensures page { IfOk result
            (λ page. IfSome (state self.old).content
            (λ c. IsPage under.now (shown after.entry) c page)) }
        ensures counts { IfOk result (CountsDown (shown after.entry)) }
        ensures looks { OnlyReads (state self.old) (state self.new) (stood self.old)
            (stood self.new) }
        ensures called { IsCalled (state self.old) (state self.new) result };

    /// Takes memory for so many changes, where that is told.
    fn make_room(&mut self, alloc: Global, changes: u64) -> Result<(), NoMemory>
        ensures ok { OnOk result (IfSome (state self.new).room (λ room. changes ≤ room)) }
        ensures told { is_some (state self.new).room ≡ is_some (state self.old).room }
        ensures same { state self.new ≡ with_room (state self.new).room (state self.old) }
        ensures looks { OnlyReads (with_room (state self.new).room (state self.old))
            (state self.new) (stood self.old) (stood self.new) };

    /// The bytes of the object from a place on, as many as there are up to a piece, and `None`
    /// exactly where no object has the path.
    fn get_piece(
        &mut self,
        alloc: Global,
        path: &ObjPath,
        from: u64,
    ) -> Result<Option<Piece>, Denied>
        ensures answer { IfOk result (AnswersPiece path.now from (state self.old).content) }
        ensures range { IfOk result (λ found. IfSome found (EndsInRange from)) }
        ensures looks { OnlyReads (state self.old) (state self.new) (stood self.old)
            (stood self.new) }
        ensures called { IsCalled (state self.old) (state self.new) result };

    /// Begins to store an object under the path. It changes no content. After a refusal there is no
    /// upload.
    fn begin(&mut self, alloc: Global, path: &ObjPath) -> Result<(), Denied>
        requires free { MayChange path.now (state self.old).terms }
        requires none { (state self.old).upload ≡ None }
        ensures ok { OnOk result
            (OnlyReads (with_upload (Some (begun path.now)) (state self.old)) (state self.new)
            (stood self.old) (stood self.new)) }
        ensures err { OnErr result
            (OnlyReads (state self.old) (state self.new) (stood self.old) (stood self.new)) }
        ensures called { IsCalled (state self.old) (state self.new) result };

    /// Adds a piece to the upload. It changes no content. After a refusal there is no upload.
    fn append(&mut self, alloc: Global, piece: &Piece) -> Result<(), Denied>
        requires { IsTrue (is_some (state self.old).upload) }
        ensures ok { OnOk result
            (OnlyReads (with_upload (with_piece piece.now (state self.old).upload)
            (state self.old)) (state self.new) (stood self.old) (stood self.new)) }
        ensures err { OnErr result
            (OnlyReads (with_upload None (state self.old)) (state self.new) (stood self.old)
            (stood self.new)) }
        ensures called { IsCalled (state self.old) (state self.new) result };

    /// The fingerprint of what was uploaded, and `None` where there is no upload. It is asked for
    /// once the upload has all its bytes: a piece that is added behind it may be refused. It takes no
    /// memory.
    fn uploaded(&mut self) -> Option<Fingerprint>
        ensures answer { result
            ≡ option_map (λ (u : Upload). fingerprint_of u.bytes) (state self.old).upload }
        ensures same { state self.new ≡ state self.old }
        ensures looks { OnlyReads (state self.old) (state self.new) (stood self.old)
            (stood self.new) };

    /// Stores what was uploaded, as `put` does, and ends the upload, whatever it answers.
    fn commit(&mut self, alloc: Global) -> Result<u64, Denied>
        requires { IsTrue (is_some (state self.old).upload) }
        ensures answer { IfSome (state self.old).upload
            (λ u. AnswersPut u.path u.bytes result (with_upload None (state self.old))
            (state self.new) (stood self.old) (stood self.new)) }
        ensures called { IsCalled (state self.old) (state self.new) result };

    /// Ends the upload, if there is one. It takes no memory.
    fn drop_upload(&mut self)
        ensures same { state self.new ≡ with_upload None (state self.old) }
        ensures looks { OnlyReads (with_upload None (state self.old)) (state self.new)
            (stood self.old) (stood self.new) };

    /// What it holds now is one of what it held up to now.
    ghost counts_now: { (store : Self) (from : ℕ) (c : Content) → from ≤ (state store).step
        → (state store).content ≡ Some c → stood store from (state store).step c };

    /// At the present step it holds nothing else.
    ghost only_now: { (store : Self) (c : Content)
        → stood store (state store).step (state store).step c → (state store).content ≡ Some c };

    /// What stood stood in a longer time too.
    ghost widens: { (store : Self) (earlier from to later : ℕ) (c : Content) → earlier ≤ from
        → to ≤ later → stood store from to c → stood store earlier later c };

    /// Where the objects are told, the second is told.
    ghost told: { (store : Self) (c : Content) → (state store).content ≡ Some c
        → IsTrue (is_some (state store).second) };
}
