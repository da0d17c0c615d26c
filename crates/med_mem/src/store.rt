// A storage in memory. It keeps a record of its changes, which tells the contents that stood.
ghost use Rattle.std.specs.Prelude.{◌≡◌, Some, None, is_some, IsTrue, IfOk, IfErr, IfSome, OnOk, OnErr, IsErrOf, option_map, string_bytes};
ghost use Rattle.std.specs.FinMap.{entries, get};
ghost use Rattle.med_base.specs.Content.{Object};
ghost use Rattle.med_base.specs.Fingerprint.{fingerprint_of};
ghost use Rattle.med_outside.specs.Causes.{HasCause};
ghost use Rattle.med_outside.specs.Pages.{CountsDown, CountsRight, IsPage, shown};
ghost use Rattle.med_outside.specs.Pieces.{begun, piece_at, with_piece, EndsInRange};
ghost use Rattle.med_outside.specs.State.{Upload};
ghost use Rattle.med_outside.specs.Storage.{stat_of};
ghost use Rattle.med_outside.specs.declared.denied.Denied.TheVariants.{Memory};
ghost use Rattle.med_mem.specs.Objects.{pairs, room_after};
ghost use Rattle.med_mem.specs.Told.{content_of};
ghost use Rattle.med_mem.specs.Calls.{new_at, Gains, with_added, with_clock, with_room_for, with_fault, uploading, IsOpened, IsPut, IsDeleted, Counts, CountsCommit, CountsPut, Stays, Leaves, LeavesPut, Ticks, TicksOrRests, Rests};
ghost use Rattle.med_mem.specs.Faults.{due_look, due_other};

use crate::faults::{begin_delete, begin_look, begin_put};
use crate::object::{
    Change, copy_bytes, copy_objects, copy_piece, put_object, remove_object, stat_object,
};
use crate::page::page_under;
use crate::upload::{MemUpload, begin_upload, grow_upload, print_of};
use crate::{MemFault, MemObject, MemWhen};
use med_base::{Fingerprint, Layout, NoMemory, ObjPath};
use med_outside::{Denied, Page, PageEnd, Piece, Stat, Storage};
use std::alloc::Global;
use std::marker::Model;

/// What a store was opened with.
#[derive(Drop)]
struct Bucket {
    base: String,
    name: String,
    layout: Layout,
}

fn new_bucket(alloc: Global, base: &str, name: &str, prefix: &Layout) -> Result<Bucket, NoMemory>
    ensures { IfOk result (λ bucket. (string_bytes bucket.base ≡ base.now)
        × (string_bytes bucket.name ≡ name.now) × (bucket.layout ≡ prefix.now)) }
{
    let base = String::from_str(alloc, base)?;
    let name = String::from_str(alloc, name)?;
    let layout = prefix.copy(alloc)?;
    Ok(Bucket { base, name, layout })
}

// The room after a call that noted a change, or none.
fn room_left(room: u64, is_noted: bool) -> u64
    ensures { result ≡ room_after is_noted room }
{
    if is_noted {
        room.saturating_sub(1)
    } else {
        room
    }
}

/// A storage in memory. A call fails only where it is set to fail, or where the number of calls is
/// at its last value.
#[derive(Drop)]
pub struct MemStore {
    objects: Vec<MemObject>,
    changes: Vec<Change>,
    room: u64,
    clock: u64,
    tick: u64,
    calls: u64,
    faults: u64,
    to_fail: Vec<MemFault>,
    bucket: Bucket,
    opens: u64,
    upload: Option<MemUpload>,
}

impl Model for MemStore {
    ghost use Rattle.std.specs.Prelude.{◌+◌, ◌≤◌, string_bytes, vec_len, vec_capacity};
    ghost use Rattle.med_outside.specs.State.{bucket_of};
    ghost use Rattle.med_mem.specs.Told.{Told};
    ghost use Rattle.med_mem.specs.Objects.{told_by, Tells};
    ghost use Rattle.med_mem.specs.Uploads.{upload_of};

    ghost Value = { Told };

    ghost view = { λ m. told_by m.changes.items m.clock m.tick m.calls m.faults m.room
        m.to_fail.items
        (bucket_of (string_bytes m.bucket.base) (string_bytes m.bucket.name) m.bucket.layout
        m.opens) (upload_of m.upload) };

    ghost invariant = { λ m. Tells m.objects.items m.changes.items m.calls
        × (m.room + vec_len m.changes ≤ vec_capacity m.changes) };
}

impl MemStore {
    /// A store without objects and faults that isn't open yet, under the layout of the empty
    /// prefix. `now` begins at the clock, in seconds, and each put that takes effect adds a tick to
    /// it afterwards, up to the last value. It takes no memory.
    pub fn new(alloc: Global, clock: u64, tick: u64) -> MemStore
        ensures { result ≡ new_at clock tick }
    {
        MemStore {
            objects: Vec::new(alloc),
            changes: Vec::new(alloc),
            room: 0,
            clock,
            tick,
            calls: 0,
            faults: 0,
            to_fail: Vec::new(alloc),
            bucket: Bucket {
                base: String::new(alloc),
                name: String::new(alloc),
                layout: Layout::plain(alloc),
            },
            opens: 0,
            upload: None,
        }
    }

    /// Puts an object there, in place of one that was there. It is no call of the trait: no call is
    /// counted, no tick is added, and it takes none of the room. For the contents that stood it
    /// belongs to the last call that was counted: since that call the store held the object. In a
    /// store without calls the object was there from the start.
    pub fn add(
        &mut self,
        alloc: Global,
        path: ObjPath,
        bytes: Vec<u8>,
        second: u64,
    ) -> Result<(), NoMemory>
        ensures content { OnOk result (Gains path bytes.items second self.old self.new) }
        ensures ok { OnOk result (self.new ≡ with_added path bytes.items second self.old) }
        ensures err { OnErr result (self.new ≡ self.old) }
    {
        self.changes.reserve(self.room as usize + 1)?;
        put_object(
            alloc,
            &mut self.objects,
            &mut self.changes,
            self.calls,
            &path,
            bytes.as_slice(),
            second,
        )?;
        Ok(())
    }

    /// Sets what `now` answers.
    pub fn set_now(&mut self, clock: u64)
        ensures { self.new ≡ with_clock clock self.old }
    {
        self.clock = clock;
    }

    /// Sets a call to fail. Of two that are set for one call the first counts. A put or a delete
    /// that fails takes effect where that is said; where there is no memory for it, it answers
    /// `Memory`.
    pub fn fail(&mut self, when: MemWhen, lands: bool) -> Result<(), NoMemory>
        ensures ok { OnOk result (self.new ≡ with_fault when lands self.old) }
        ensures err { OnErr result (self.new ≡ self.old) }
    {
        self.to_fail.push(MemFault { when, lands })?;
        Ok(())
    }

    /// The objects, in byte order of their paths.
    pub fn content(&self, alloc: Global) -> Result<Vec<MemObject>, NoMemory>
        ensures { IfOk result (λ objects. pairs objects.items ≡ entries (content_of self.now)) }
    {
        copy_objects(alloc, self.objects.as_slice())
    }
}

impl Storage for MemStore {
    ghost use Rattle.std.specs.Prelude.{refl};
    ghost use Rattle.med_mem.specs.Told.{state_of, stood_of};
    ghost use Rattle.med_mem.specs.ToldLaws.{counts_now_of, only_now_of, widens_of};

    ghost state = { state_of };

    ghost stood = { stood_of };

    ghost counts_now = { counts_now_of };

    ghost only_now = { only_now_of };

    ghost widens = { widens_of };

    ghost told = { λ _ _ _. refl };

    fn open(
        &mut self,
        alloc: Global,
        base: &str,
        bucket: &str,
        prefix: &Layout,
    ) -> Result<(), Denied>
        ensures ok { OnOk result (IsOpened base.now bucket.now prefix.now self.old self.new) }
        ensures err { OnErr result (Stays self.old self.new) }
        ensures rests { Rests self.old self.new }
        ensures counts { Counts (due_look self.old.calls self.old.to_fail) self.old.to_fail self.old
            self.new result }
        ensures cause { HasCause self.old.faults self.new.faults result }
    {
        begin_look(&mut self.calls, &mut self.faults, self.to_fail.as_slice())?;
        self.bucket = new_bucket(alloc, base, bucket, prefix)?;
        self.opens = self.opens.saturating_add(1);
        Ok(())
    }

    fn now(&mut self) -> u64
        ensures value { result ≡ self.old.clock }
        ensures same { self.new ≡ self.old }
        ensures looks { Stays self.old self.new }
    {
        self.clock
    }

    fn stat(&mut self, alloc: Global, path: &ObjPath) -> Result<Option<Stat>, Denied>
        ensures answer { IfOk result
            (λ found. found ≡ option_map stat_of (get (content_of self.old) path.now)) }
        ensures looks { Stays self.old self.new }
        ensures rests { Rests self.old self.new }
        ensures counts { Counts (due_look self.old.calls self.old.to_fail) self.old.to_fail self.old
            self.new result }
        ensures cause { HasCause self.old.faults self.new.faults result }
    {
        begin_look(&mut self.calls, &mut self.faults, self.to_fail.as_slice())?;
        Ok(stat_object(self.objects.as_slice(), path.as_str()))
    }

    fn get(&mut self, alloc: Global, path: &ObjPath) -> Result<Option<Vec<u8>>, Denied>
        ensures answer { IfOk result
            (λ found. option_map (λ bytes. bytes.items) found
            ≡ option_map (λ (o : Object). o.bytes) (get (content_of self.old) path.now)) }
        ensures looks { Stays self.old self.new }
        ensures rests { Rests self.old self.new }
        ensures counts { Counts (due_look self.old.calls self.old.to_fail) self.old.to_fail self.old
            self.new result }
        ensures cause { HasCause self.old.faults self.new.faults result }
    {
        begin_look(&mut self.calls, &mut self.faults, self.to_fail.as_slice())?;
        Ok(copy_bytes(alloc, self.objects.as_slice(), path.as_str())?)
    }

    fn put(&mut self, alloc: Global, path: &ObjPath, bytes: &[u8]) -> Result<u64, Denied>
        ensures ok { IfOk result (IsPut path.now bytes.now self.old self.new) }
        ensures err { IfErr result (LeavesPut path.now bytes.now self.old self.new) }
        ensures ticks { OnOk result (Ticks self.old self.new) }
        ensures rests { IfErr result (TicksOrRests path.now self.old self.new) }
        ensures counts { CountsPut path.now self.old self.new result }
        ensures cause { HasCause self.old.faults self.new.faults result }
    {
        let fails = begin_put(
            &mut self.calls,
            &mut self.faults,
            &mut self.to_fail,
            path.as_str(),
        )?;
        let second = self.clock;
        put_object(
            alloc,
            &mut self.objects,
            &mut self.changes,
            self.calls,
            path,
            bytes,
            second,
        )?;
        self.room = self.room.saturating_sub(1);
        self.clock = second.saturating_add(self.tick);
        if fails {
            self.faults = self.faults.saturating_add(1);
            return Err(Denied::Failed);
        }
        Ok(second)
    }

    fn delete(&mut self, alloc: Global, path: &ObjPath) -> Result<(), Denied>
        ensures ok { OnOk result (IsDeleted path.now self.old self.new) }
        ensures err { IfErr result
            (Leaves (IsDeleted path.now self.old self.new) (Stays self.old self.new)
            (due_other self.old.calls self.old.to_fail)) }
        ensures full { IsErrOf result Denied.Memory → self.old.room ≡ 0 }
        ensures rests { Rests self.old self.new }
        ensures counts { Counts (due_other self.old.calls self.old.to_fail) self.old.to_fail
            self.old self.new result }
        ensures cause { HasCause self.old.faults self.new.faults result }
    {
        let fails = begin_delete(&mut self.calls, &mut self.faults, self.to_fail.as_slice())?;
        let text = path.as_str();
        let was_there = remove_object(&mut self.objects, &mut self.changes, self.calls, text)?;
        self.room = room_left(self.room, was_there);
        if fails {
            self.faults = self.faults.saturating_add(1);
            return Err(Denied::Failed);
        }
        Ok(())
    }

    fn list_page(
        &mut self,
        alloc: Global,
        under: &str,
        after: Option<&PageEnd>,
    ) -> Result<Page, Denied>
        requires { CountsRight under.now (shown after) (Some (content_of self.old)) }
        ensures page { IfOk result (IsPage under.now (shown after.entry) (content_of self.old)) }
        ensures left { IfOk result (CountsDown (shown after.entry)) }
        ensures looks { Stays self.old self.new }
        ensures rests { Rests self.old self.new }
        ensures counts { Counts (due_look self.old.calls self.old.to_fail) self.old.to_fail self.old
            self.new result }
        ensures cause { HasCause self.old.faults self.new.faults result }
    {
        begin_look(&mut self.calls, &mut self.faults, self.to_fail.as_slice())?;
        Ok(page_under(alloc, self.objects.as_slice(), under, after)?)
    }

    fn make_room(&mut self, alloc: Global, changes: u64) -> Result<(), NoMemory>
        ensures ok { OnOk result (self.new ≡ with_room_for changes self.old) }
        ensures err { OnErr result (self.new ≡ self.old) }
    {
        self.changes.reserve(changes as usize)?;
        self.room = self.room.max(changes);
        Ok(())
    }

    fn get_piece(
        &mut self,
        alloc: Global,
        path: &ObjPath,
        from: u64,
    ) -> Result<Option<Piece>, Denied>
        ensures answer { IfOk result
            (λ found. found ≡ option_map (λ (o : Object). piece_at from o.bytes)
            (get (content_of self.old) path.now)) }
        ensures range { IfOk result (λ found. IfSome found (EndsInRange from)) }
        ensures looks { Stays self.old self.new }
        ensures rests { Rests self.old self.new }
        ensures counts { Counts (due_look self.old.calls self.old.to_fail) self.old.to_fail self.old
            self.new result }
        ensures cause { HasCause self.old.faults self.new.faults result }
    {
        begin_look(&mut self.calls, &mut self.faults, self.to_fail.as_slice())?;
        Ok(copy_piece(alloc, self.objects.as_slice(), path.as_str(), from)?)
    }

    fn begin(&mut self, alloc: Global, path: &ObjPath) -> Result<(), Denied>
        ensures ok { OnOk result (Stays (uploading (Some (begun path.now)) self.old) self.new) }
        ensures err { OnErr result (Stays self.old self.new) }
        ensures rests { Rests self.old self.new }
        ensures counts { Counts (due_look self.old.calls self.old.to_fail) self.old.to_fail self.old
            self.new result }
        ensures cause { HasCause self.old.faults self.new.faults result }
    {
        begin_look(&mut self.calls, &mut self.faults, self.to_fail.as_slice())?;
        self.upload = begin_upload(alloc, path)?;
        Ok(())
    }

    fn append(&mut self, alloc: Global, piece: &Piece) -> Result<(), Denied>
        ensures ok { OnOk result
            (Stays (uploading (with_piece piece.now self.old.upload) self.old) self.new) }
        ensures err { OnErr result (Stays (uploading None self.old) self.new) }
        ensures rests { Rests self.old self.new }
        ensures counts { Counts (due_look self.old.calls self.old.to_fail) self.old.to_fail self.old
            self.new result }
        ensures cause { HasCause self.old.faults self.new.faults result }
    {
        let upload = self.upload.take();
        begin_look(&mut self.calls, &mut self.faults, self.to_fail.as_slice())?;
        self.upload = grow_upload(upload, piece)?;
        Ok(())
    }

    fn uploaded(&mut self) -> Option<Fingerprint>
        ensures answer { result
            ≡ option_map (λ (u : Upload). fingerprint_of u.bytes) self.old.upload }
        ensures same { self.new ≡ self.old }
        ensures looks { Stays self.old self.new }
    {
        print_of(&self.upload)
    }

    fn commit(&mut self, alloc: Global) -> Result<u64, Denied>
        requires { IsTrue (is_some self.old.upload) }
        ensures ok { IfOk result (λ second. IfSome self.old.upload
            (λ u. IsPut u.path u.bytes (uploading None self.old) self.new second)) }
        ensures err { IfSome self.old.upload
            (λ u. IfErr result (LeavesPut u.path u.bytes (uploading None self.old) self.new)) }
        ensures ticks { OnOk result (Ticks self.old self.new) }
        ensures rests { IfSome self.old.upload
            (λ u. IfErr result (TicksOrRests u.path self.old self.new)) }
        ensures counts { CountsCommit self.old self.new result }
        ensures cause { HasCause self.old.faults self.new.faults result }
    {
        match self.upload.take() {
            Some(upload) => self.put(alloc, &upload.path, upload.bytes.as_slice()),
            None => unreachable!(),
        }
    }

    fn drop_upload(&mut self)
        ensures same { self.new ≡ uploading None self.old }
        ensures looks { Stays (uploading None self.old) self.new }
    {
        self.upload = None;
    }
}
