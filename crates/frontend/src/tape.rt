//! Tapes: files of records of 512 bytes that only get longer, until they are begun anew.

ghost use Rattle.std.specs.Prelude.{◌≡◌, ◌+◌, ◌*◌, ◌%◌, ◌<◌, ◌≤◌};

use crate::Editor;
use crate::fault::{Astray, Fault, Trouble};
use inspection::{Damage, Tour, Wrong};
use std::alloc::Global;
use std::fs::{File, OpenOptions, TryLockError};
use std::io;
use std::io::{Read, Seek, SeekFrom, Write};
use std::path::Path;

/// How many bytes a record has, as in `records`, of which an editor needs nothing else.
pub const RECORD: usize = 512;

/// How many bytes are looked at together, 128 records.
const BATCH: u64 = 65_536;

const ZEROS: [u8; RECORD] = [0; RECORD];

/// Of two heads one has to follow the other: of three generations in turn, two that differ do.
const TWINS: Damage = Damage {
    record: 0,
    wrong: Wrong::Generation,
};

/// How many zeros a file of so many bytes lacks for its last record to be whole.
fn missing(len: u64) -> usize
    ensures whole { (len + result) % 512 ≡ 0 }
    ensures few { result < 512 }
{
    (RECORD - len as usize % RECORD) % RECORD
}

/// How many records a file of so many bytes has, the last of them perhaps in part.
fn count(len: u64) -> u64
    ensures enough { len ≤ 512 * result }
    ensures tight { 512 * result < len + 512 }
{
    len.div_ceil(RECORD as u64)
}

/// The folder of a file is made durable, so that a file that was made just now is found after a power cut.
fn sync_folder(rt: &HostRuntime, name: &str) -> io::Result<()> {
    let folder = Path::new(name)
        .parent()
        .filter(|folder| !folder.as_str().is_empty())
        .unwrap_or(Path::new("."));
    File::open(rt, folder)?.sync_all()
}

/// Keeps other editors away from a file, where the editor does that.
fn lock<E: Editor>(file: &File) -> Result<(), Trouble> {
    E::lock(file).map_err(|error| match error {
        TryLockError::WouldBlock => Trouble::Locked,
        TryLockError::Error(reason) => Trouble::Lock(reason),
    })
}

/// How many bytes a file has, if it can be a tape.
fn measure(file: &File, room: u64) -> Result<u64, Trouble> {
    let facts = file.metadata().map_err(Trouble::Open)?;
    if !facts.is_file() {
        return Err(Trouble::Irregular);
    }
    if count(facts.len()) > room {
        return Err(Trouble::TooLong(room));
    }
    Ok(facts.len())
}

/// The file of that name, from which other editors are kept away, and how many bytes it has.
fn open_file<E: Editor>(rt: &HostRuntime, name: &str, room: u64) -> Result<(File, u64), Trouble> {
    let file = OpenOptions::new()
        .read(true)
        .append(true)
        .create(true)
        .open(rt, name)
        .map_err(|reason| Trouble::Open(reason))?;
    lock::<E>(&file)?;
    let bytes = measure(&file, room)?;
    Ok((file, bytes))
}

/// A file of records, how many bytes it had when it was opened, how many records it has, and how many it has room for.
#[derive(Drop)]
pub struct Tape {
    file: File,
    name: String,
    bytes: u64,
    records: u64,
    room: u64,
}

impl Tape {
    /// The file of that name, which is made if it isn't there. Nothing is written yet.
    fn open<E: Editor>(rt: &HostRuntime, name: String, room: u64) -> Result<Tape, Fault> {
        match open_file::<E>(rt, name.as_str(), room) {
            Ok((file, bytes)) => Ok(Tape {
                file,
                name,
                bytes,
                records: count(bytes),
                room,
            }),
            // The name itself and no copy, for which there may be no memory.
            Err(trouble) => Err(Fault::File { name, trouble }),
        }
    }

    /// Looks at every record before any is believed. The generation that the head names comes back.
    fn inspect(&mut self, heap: Global) -> Result<Option<u32>, Fault> {
        let mut tour = Tour::new();
        let mut pages = Vec::new(heap);
        let mut left = self.bytes;
        // Counted down by hand: the last batch may be shorter, which `step_by` doesn't say.
        while left > 0 {
            let here = left.min(BATCH);
            left -= here;
            pages.resize(here as usize, 0)?;
            self.file
                .read_exact(pages.as_mut_slice())
                .map_err(|reason| Trouble::Read(reason).of(&self.name))?;
            if let Some(damage) = tour.look_on(pages.as_slice()) {
                return Err(Trouble::Damaged(damage).of(&self.name));
            }
        }
        Ok(tour.generation())
    }

    /// What a power cut left of a last record is made a whole one, with zeros behind, and durable.
    fn mend(&mut self, rt: &HostRuntime) -> Result<(), Fault> {
        if self.records == 0 {
            return sync_folder(rt, self.name.as_str()).map_err(|reason| Trouble::Sync(reason).of(
                &self.name,
            ));
        }
        // The other name may be of the same file, which is whole then.
        let facts = self
            .file
            .metadata()
            .map_err(|reason| Trouble::Read(reason).of(&self.name))?;
        let lacks = missing(facts.len());
        if lacks == 0 {
            return Ok(());
        }
        self.file
            .write_all(&ZEROS[0..lacks])
            .map_err(|reason| Trouble::Append(reason).of(&self.name))?;
        self.sync()
    }

    /// A record in place of what `page` holds; nothing behind the last.
    pub(crate) fn read(&mut self, record: u64, page: &mut Vec<u8>) -> Result<(), Fault> {
        page.clear();
        if record >= self.records {
            return Ok(());
        }
        page.resize(RECORD, 0)?;
        self.read_at(record, page.as_mut_slice())
            .map_err(|reason| Trouble::Read(reason).of(&self.name))
    }

    fn read_at(&mut self, record: u64, page: &mut [u8]) -> io::Result<()> {
        self.file
            .seek(SeekFrom::Start(record.saturating_mul(RECORD as u64)))?;
        self.file.read_exact(page)
    }

    /// One record more.
    pub(crate) fn append(&mut self, record: &[u8]) -> Result<(), Fault> {
        if self.records >= self.room {
            return Err(Fault::House(Astray::Full));
        }
        self.file
            .write_all(record)
            .map_err(|reason| Trouble::Append(reason).of(&self.name))?;
        self.records += 1;
        Ok(())
    }

    /// What is on it is durable then.
    pub(crate) fn sync(&mut self) -> Result<(), Fault> {
        self.file
            .sync_data()
            .map_err(|reason| Trouble::Sync(reason).of(&self.name))
    }

    /// Without records, and durably so before anything else is done.
    pub(crate) fn begin(&mut self) -> Result<(), Fault> {
        self.emptied()
            .map_err(|reason| Trouble::Begin(reason).of(&self.name))?;
        self.records = 0;
        Ok(())
    }

    fn emptied(&mut self) -> io::Result<()> {
        self.file.set_len(0)?;
        self.file.sync_all()
    }
}

/// Looks at both tapes, and that their heads differ.
pub fn inspect(heap: Global, tapes: &mut [Tape; 2]) -> Result<(), Fault> {
    let mut other = None;
    for tape in tapes {
        let generation = tape.inspect(heap)?;
        if generation.is_some() && generation == other {
            return Err(Trouble::Damaged(TWINS).of(&tape.name));
        }
        other = generation;
    }
    Ok(())
}

/// The two tapes of a house.
#[derive(Drop)]
pub struct Tapes {
    tapes: [Tape; 2],
}

impl Tapes {
    /// Both files, opened and looked at before either is written.
    pub fn open<E: Editor>(
        rt: &HostRuntime,
        names: [String; 2],
        room: u64,
    ) -> Result<Tapes, Fault> {
        let mut tapes = names.try_map(|name| Tape::open::<E>(rt, name, room))?;
        E::inspect(rt.alloc(), &mut tapes)?;
        for tape in &mut tapes {
            tape.mend(rt)?;
        }
        Ok(Tapes { tapes })
    }

    /// Tape 0 or 1.
    pub fn get(&mut self, number: u64) -> Result<&mut Tape, Fault> {
        // Of a slice: that of the array itself gets no proof yet, as its elements own memory.
        let tapes = &mut self.tapes;
        let tapes = &mut tapes[..];
        tapes
            .get_mut(number as usize)
            .ok_or(Fault::House(Astray::Tape))
    }
}
