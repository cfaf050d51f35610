ghost use Rattle.std.specs.Prelude.{◌≡◌, ◌≤◌, [], None, false, IfOk, OnErr, OnOk, length};
ghost use Rattle.swi_outside.specs.Shelf.{Same, SameElsewhere, Stands, IsLonger, WasGot, WasPut};
ghost use Rattle.swi_devices.specs.ByteLog.{bytes_in};
ghost use Rattle.swi_devices.specs.FolderCalls.{BreaksOff, GetAsks, PutAsks, asked_by, calls_of, closed, created, file_failures, shelf_of};
ghost use Rattle.swi_devices.specs.Folders.{TakesAll, TakesMore};

use crate::Folder;
use crate::byte_log::ByteLog;
use crate::shelf_call::{ShelfCall, key_of};
use crate::shelf_log::{ShelfLog, note_got, note_taken};
use crate::watched_folder::{OpenFile, WatchedFolder};
use std::alloc::Global;
use std::io::Read;
use std::snapshot::Snapshot;
use swi_outside::{Failed, Shelf, ShelfError};

/// The files of a folder, by their names. It tells the contents that the folder tells; the system's
/// folder tells none.
///
/// Each failure of the folder or of a file is a fault, and is answered at once; so is a file that
/// takes nothing of bytes that are to be written.
#[derive(Drop)]
pub struct FolderShelf<D> {
    folder: WatchedFolder<D>,
    calls: u64,
    faults: u64,
    last: Option<(ShelfCall, String)>,
    got: Snapshot<ShelfLog>,
    stored: Snapshot<ShelfLog>,
}

impl<D: Folder> FolderShelf<D> {
    /// A shelf over a folder, as `SystemFolder::new(rt)`, without a fault.
    pub fn new(folder: D) -> FolderShelf<D>
        ensures { ⟦<FolderShelf<D> as Shelf>⟧.state result
            ≡ record { contents = D.contents folder; got = []; stored = []; calls = 0; faults = 0; last_failed = None } }
    {
        FolderShelf {
            folder: WatchedFolder::new(folder),
            calls: 0,
            faults: 0,
            last: None,
            got: Snapshot::of(&ShelfLog::None),
            stored: Snapshot::of(&ShelfLog::None),
        }
    }
}

impl<D: Folder> Shelf for FolderShelf<D> {
    ghost state = { shelf_of D.contents };

    fn get(&mut self, alloc: Global, name: &str, limit: u32) -> Result<Vec<u8>, ShelfError>
        ensures got { WasGot (shelf_of D.contents self.old) (shelf_of D.contents self.new) name.now limit result }
        ensures asks { GetAsks (asked_by self.old) (asked_by self.new) result }
    {
        self.calls = self.calls.saturating_add(1);
        let key = key_of(alloc, name)?;
        let answer = read_file(&mut self.folder, alloc, name, limit);
        note_got(&mut self.got, &key, &answer);
        match answer {
            Err(ShelfError::Failed) => {
                self.faults = self.faults.saturating_add(1);
                self.last = Some((ShelfCall::Get, key));
                Err(ShelfError::Failed)
            }
            answer => answer,
        }
    }

    fn put(&mut self, alloc: Global, name: &str, bytes: &[u8]) -> Result<(), ShelfError>
        ensures put { WasPut (shelf_of D.contents self.old) (shelf_of D.contents self.new) name.now bytes.now result }
        ensures asks { PutAsks (asked_by self.old) (asked_by self.new) result }
    {
        self.calls = self.calls.saturating_add(1);
        let key = key_of(alloc, name)?;
        match write_file(&mut self.folder, name, bytes) {
            Ok(took) => {
                note_taken(&mut self.stored, &key, took);
                Ok(())
            }
            Err(_) => {
                self.faults = self.faults.saturating_add(1);
                self.last = Some((ShelfCall::Put, key));
                Err(ShelfError::Failed)
            }
        }
    }
}

fn read_file<D: Folder>(
    folder: &mut WatchedFolder<D>,
    alloc: Global,
    name: &str,
    limit: u32,
) -> Result<Vec<u8>, ShelfError>
    ensures same { Same (D.contents folder.old.folder) (D.contents folder.new.folder) }
    ensures content { IfOk result (λ bytes. Stands (D.contents folder.old.folder) name.now bytes.items) }
    ensures within { IfOk result (λ bytes. length bytes.items ≤ limit) }
    ensures long { result ≡ Err ShelfError.Long → IsLonger (D.contents folder.old.folder) name.now limit }
    ensures asks { GetAsks (calls_of folder.old) (calls_of folder.new) result }
{
    let mut file = folder.open(name).map_err(|_| ShelfError::Failed)?;
    let answer = read_within(alloc, &mut file, limit);
    folder.release(file);
    answer
}

// Reads until the end, or one byte past the limit, at least one byte a turn.
fn read_within<F: Read>(
    alloc: Global,
    file: &mut OpenFile<F>,
    limit: u32,
) -> Result<Vec<u8>, ShelfError>
    requires unended { file.old.file.ended ≡ false }
    ensures whole { IfOk result
        (λ bytes. TakesAll (F.remaining file.old.file.device) (F.remaining file.new.file.device) bytes.items) }
    ensures within { IfOk result (λ bytes. length bytes.items ≤ limit) }
    ensures long { result ≡ Err ShelfError.Long →
        TakesMore (F.remaining file.old.file.device) (F.remaining file.new.file.device) limit }
    ensures late { file.new.file.late ≡ file.old.file.late }
    ensures failed { file.new.file.failures ≡ file_failures file.old.file.failures result }
{
    let limit = limit as usize;
    let mut bytes = Vec::new(alloc);
    let mut piece = [0u8; 4096];
    while bytes.len() <= limit {
        let wanted = piece.len().min(limit + 1 - bytes.len());
        let count = file
            .read(&mut piece[..wanted])
            .map_err(|_| ShelfError::Failed)?;
        if count == 0 {
            return Ok(bytes);
        }
        bytes
            .extend_from_slice(&piece[..count])
            .map_err(|_| ShelfError::Memory)?;
    }
    Err(ShelfError::Long)
}

// What its file took is handed on.
fn write_file<D: Folder>(
    folder: &mut WatchedFolder<D>,
    name: &str,
    bytes: &[u8],
) -> Result<Snapshot<ByteLog>, Failed>
    ensures others { SameElsewhere (D.contents folder.old.folder) (D.contents folder.new.folder) name.now }
    ensures stands { OnOk result (Stands (D.contents folder.new.folder) name.now bytes.now) }
    ensures taken { IfOk result (λ took. bytes_in took.value ≡ bytes.now) }
    ensures asks { OnOk result (calls_of folder.new ≡ closed (created (calls_of folder.old))) }
    ensures broke { OnErr result (BreaksOff (calls_of folder.old) (calls_of folder.new)) }
{
    let mut file = folder.create(name)?;
    let mut took = Snapshot::of(&ByteLog::None);
    if file.write_whole(bytes, &mut took).is_err() {
        folder.release(file);
        return Err(Failed);
    }
    folder.close(name, file)?;
    Ok(took)
}
