// A store in memory, which tells its files.

ghost use Rattle.std.specs.Prelude.{◌≡◌, ◌↔◌, ◌⊎◌, ◌+◌, ◌<◌, ◌≤◌, true, false, length, vec_len, vec_capacity, Some, Err, IfOk, OnOk, OnErr, IsErr};
ghost use Rattle.std.specs.Option.{option_copied};
ghost use Rattle.fed_ports.specs.Causes.{HasCause};
ghost use Rattle.fed_base.specs.Plans.{plan_of, after_call, calls_left, IsDue};
ghost use Rattle.fed_ports.specs.KeptFiles.{files_of, kept_size};
ghost use Rattle.fed_ports.specs.Stores.{Loads, Keeps, HasStoreCause};

use crate::kept_file::{KeptFile, last_kept, put};
use crate::named_file::{NamedFile, last_of};
use crate::store::{FILE_LIMIT, Store, StoreFault};
use fed_base::{CallPlan, Failed, Memory, Seq, Text};
use std::alloc::Global;

/// A store of given files. Where two have one name, the later one counts.
#[derive(Drop)]
pub struct MemoryStore {
    files: Seq<NamedFile>,
    kept: Vec<KeptFile>,
    bytes: Vec<u8>,
    room: usize,
    leaves_new: bool,
    plan: CallPlan,
    faults: u64,
    ghost sized: { kept_size kept.items ≡ length bytes.items },
    ghost byte_room: { vec_len bytes + room ≤ vec_capacity bytes },
    ghost entry_room: { vec_len kept + calls_left (plan_of plan) ≤ vec_capacity kept },
}

// The bytes of the last file of that name, where those that were kept are behind the others.
fn found<'a>(
    kept: &[KeptFile],
    bytes: &'a [u8],
    files: &'a [NamedFile],
    name: &[u8],
) -> Option<&'a [u8]>
    ensures { option_copied result ≡ files_of kept.now bytes.now files.now name.now }
{
    match last_kept(kept, bytes, name) {
        Some(bytes) => Some(bytes),
        None => match last_of(files, name) {
            Some(bytes) => Some(bytes.as_slice()),
            None => None,
        },
    }
}

impl MemoryStore {
    ghost use Rattle.fed_ports.specs.MemoryStores.{store_files, store_plan, store_faults, store_room, store_leaves_new};
    ghost use Rattle.fed_ports.specs.NamedFiles.{file_of};

    /// A store of these files, in which as many bytes of names and files can be kept as `room` says. That room and the room for `calls`
    /// calls are taken here. The calls whose numbers are listed fail, the first having the number 0, and so does every call from the
    /// number `calls` on. A `keep` that is listed leaves the new file where `leaves_new` says so, and the old one else. A `keep` for which
    /// there is no room fails and leaves the old one.
    pub fn new(
        alloc: Global,
        files: Seq<NamedFile>,
        room: usize,
        leaves_new: bool,
        failing: &[u64],
        calls: u64,
    ) -> Result<MemoryStore, Memory>
        ensures files { IfOk result (λ store. store_files store ≡ file_of files) }
        ensures plan { IfOk result (λ store. store_plan store ≡ record { failing = failing.now; room = calls; made = 0 }) }
        ensures faults { IfOk result (λ store. store_faults store ≡ 0) }
        ensures room { IfOk result (λ store. store_room store ≡ room) }
        ensures leaves_new { IfOk result (λ store. store_leaves_new store ≡ leaves_new) }
    {
        let kept = Vec::with_capacity(alloc, calls as usize)?;
        let bytes = Vec::with_capacity(alloc, room)?;
        let plan = CallPlan::new(alloc, failing, calls)?;
        Ok(MemoryStore {
            files,
            kept,
            bytes,
            room,
            leaves_new,
            plan,
            faults: 0,
        })
    }

    /// The bytes of the file of this name, or `None` where there is none.
    pub fn file(&self, name: &[u8]) -> Option<&[u8]>
        ensures { option_copied result ≡ store_files self.now name.now }
    {
        found(
            self.kept.as_slice(),
            self.bytes.as_slice(),
            self.files.as_slice(),
            name,
        )
    }
}

impl Store for MemoryStore {
    ghost use Rattle.fed_ports.specs.MemoryStores.{store_files, store_plan, store_faults, store_room, store_leaves_new};

    ghost files = { λ store. Some (files_of store.kept.items store.bytes.items store.files) };

    ghost store_faults = { λ store. store.faults };

    fn load(&mut self, alloc: Global, name: &Text) -> Result<Option<Text>, StoreFault>
        ensures loaded { Loads (Some (store_files self.old)) name.now result }
        ensures files { store_files self.new ≡ store_files self.old }
        ensures cause { HasStoreCause (store_faults self.old) (store_faults self.new) result }
        // It fails exactly where the call is to fail.
        ensures planned { (result ≡ Err StoreFault.Failed) ↔ IsDue (store_plan self.old) }
        ensures counted { store_plan self.new ≡ after_call (store_plan self.old) }
        ensures room { store_room self.new ≡ store_room self.old }
        ensures leaves_new { store_leaves_new self.new ≡ store_leaves_new self.old }
    {
        if self.plan.next_fails() {
            self.faults = self.faults.saturating_add(1);
            return Err(StoreFault::Failed);
        }
        match found(
            self.kept.as_slice(),
            self.bytes.as_slice(),
            self.files.as_slice(),
            name.as_slice(),
        ) {
            None => Ok(None),
            Some(bytes) if bytes.len() > FILE_LIMIT => Err(StoreFault::TooLong),
            Some(bytes) => Ok(Some(Text::of(alloc, bytes)?)),
        }
    }

    fn keep(&mut self, name: &Text, bytes: &[u8]) -> Result<(), Failed>
        ensures kept { Keeps (Some (store_files self.old)) (Some (store_files self.new)) name.now bytes.now result }
        ensures cause { HasCause (store_faults self.old) (store_faults self.new) result }
        // It fails exactly where the call is to fail or there is no room for the name and the bytes.
        ensures planned { IsErr result ↔ (IsDue (store_plan self.old) ⊎ (store_room self.old < length name.now + length bytes.now)) }
        ensures counted { store_plan self.new ≡ after_call (store_plan self.old) }
        // Where it is to fail and doesn't leave the new file, or where there is no room, all files stay.
        ensures stays { IsDue (store_plan self.old) → store_leaves_new self.old ≡ false
            → store_files self.new ≡ store_files self.old }
        ensures full { store_room self.old < length name.now + length bytes.now → store_files self.new ≡ store_files self.old }
        // Where it is to fail and leaves the new file, or where it doesn't fail, the new file is there.
        ensures left { store_leaves_new self.old ≡ true → 0 < calls_left (store_plan self.old)
            → length name.now + length bytes.now ≤ store_room self.old → store_files self.new name.now ≡ Some bytes.now }
        ensures room { OnOk result (store_room self.new + (length name.now + length bytes.now) ≡ store_room self.old) }
        ensures less { store_room self.new ≤ store_room self.old }
        ensures leaves_new { store_leaves_new self.new ≡ store_leaves_new self.old }
    {
        let has_room = self.plan.has_room();
        let fails = self.plan.next_fails();
        let name = name.as_slice();
        let needed = name.len() + bytes.len();
        if self.room < needed || !has_room || (fails && !self.leaves_new) {
            self.faults = self.faults.saturating_add(1);
            return Err(Failed);
        }
        self.room -= needed;
        put(&mut self.kept, &mut self.bytes, name, bytes);
        if fails {
            self.faults = self.faults.saturating_add(1);
            return Err(Failed);
        }
        Ok(())
    }
}
