//! The file. Each call on it is noted with its answer.

ghost use Rattle.std.specs.Prelude.{◌≡◌, ◌+◌, ◌<◌, ◌≤◌, ◌^◌, [], length, true, false, None, IfOk, IfSome};
ghost use Rattle.journal_file.specs.Events.{seen_after};

use crate::record::Record;
use journal::{Device, DeviceFault};
use std::alloc::Global;
use std::fs::{File, OpenOptions};
use std::io;
use std::os::unix::fs::{FileExt, OpenOptionsExt};

const FOUND: u64 = 0;

const WRITTEN: u64 = 1;

const CUT: u64 = 2;

const SYNCED: u64 = 3;

const NOT_WRITTEN: u64 = 4;

const NOT_CUT: u64 = 5;

const FAILED: u64 = 6;

/// An open file, locked against other processes.
#[derive(Drop)]
pub struct FileDevice {
    file: File,
    record: Record,
    /// How many bytes the file had when it was opened, and how many of them were read.
    len: usize,
    read: usize,
    /// Nothing was written yet.
    is_reading: bool,
    /// The place from which on the file's bytes are not known, since a write or a cut failed. Then only a cut that takes them away is made.
    unknown_from: Option<usize>,
    /// A sync has failed. What was written may be lost with no further error, so nothing more is asked of the file.
    has_failed: bool,
    ghost within: { read ≤ len },
    ghost small: { len < 2 ^ 63 },
    ghost size: { is_reading ≡ true → length (seen_after record.events) ≡ read },
}

/// Opens the file, or makes it, and locks it. It syncs the file and its folder.
fn open_synced(rt: &HostRuntime, path: &str) -> io::Result<File> {
    let file = OpenOptions::new()
        .read(true)
        .write(true)
        .create(true)
        .mode(0o600)
        .open(rt, path)?;
    file.try_lock()?;
    file.sync_all()?;
    sync_folder(rt, path)?;
    Ok(file)
}

/// Syncs the folder in which the file is, so that its name is there after a crash.
fn sync_folder(rt: &HostRuntime, path: &str) -> io::Result<()> {
    let folder = match path.rfind('/') {
        Some(0) => "/",
        Some(at) => path.get(..at).unwrap_or("."),
        None => ".",
    };
    let folder = File::open(rt, folder)?;
    folder.sync_all()?;
    Ok(())
}

/// Returns the length of the file in bytes.
fn len_of(file: &File) -> io::Result<usize>
    ensures { IfOk result (λ n. n < 2 ^ 63) }
{
    let len = file.metadata()?.len();
    if len >= 1 << 63 {
        return Err(io::Error::from(io::ErrorKind::FileTooLarge));
    }
    Ok(len as usize)
}

impl FileDevice {
    /// Opens the file, or makes it, and locks it. Only its owner may read and write a file that it makes. It syncs the file and its folder
    /// first, so what is read of the file is taken to be on the disk.
    ///
    /// The error is `WouldBlock` if another process has the file, and `FileTooLarge` if the file has 2^63 bytes or more. Other errors are
    /// those of the operating system.
    pub fn open(rt: &HostRuntime, path: &str) -> io::Result<FileDevice>
        ensures { IfOk result (λ d. seen_after d.record.events ≡ []) }
    {
        let file = open_synced(rt, path)?;
        let len = len_of(&file)?;
        Ok(FileDevice {
            file,
            record: Record::new(),
            len,
            read: 0,
            is_reading: true,
            unknown_from: None,
            has_failed: false,
        })
    }

    /// Returns how many bytes a read of `most` bytes gives. They are fewer only if they are the last ones.
    fn next_len(&self, most: usize) -> usize
        ensures most { result ≤ most }
        ensures within { self.now.read + result ≤ self.now.len }
        ensures end { result < most → self.now.read + result ≡ self.now.len }
    {
        most.min(self.len - self.read)
    }

    /// Returns whether a write or a sync may be made. It may if all was read, and no call has failed whose effect isn't known.
    fn may_write(&self) -> bool
        ensures all { result ≡ true → self.now.is_reading ≡ true → self.now.read ≡ self.now.len }
        ensures sound { result ≡ true → self.now.has_failed ≡ false }
        ensures known { result ≡ true → self.now.unknown_from ≡ None }
    {
        let all = !self.is_reading || self.read == self.len;
        all && !self.has_failed && self.unknown_from.is_none()
    }

    /// Returns whether a cut to this length may be made. It may if all was read, no sync has failed, and the cut takes away what is not
    /// known.
    fn may_cut(&self, len: usize) -> bool
        ensures all { result ≡ true → self.now.is_reading ≡ true → self.now.read ≡ self.now.len }
        ensures sound { result ≡ true → self.now.has_failed ≡ false }
        ensures known { result ≡ true → IfSome self.now.unknown_from (λ from. len ≤ from) }
    {
        let known = match self.unknown_from {
            Some(from) => len <= from,
            None => true,
        };
        let all = !self.is_reading || self.read == self.len;
        all && known && !self.has_failed
    }
}

impl Device for FileDevice {
    ghost use Rattle.std.specs.Prelude.{length};
    ghost use Rattle.journal_file.specs.Events.{seen_after, leaves_after, left_after, faults_after};
    ghost use Rattle.journal_file.specs.Laws.{counts_now as counts, only_now as only, seen_stays};

    ghost found = { λ f. seen_after f.record.events };

    ghost seen = { λ f. seen_after f.record.events };

    ghost may_leave = { λ f c. leaves_after f.record.events c };

    ghost moment = { λ f. length f.record.events };

    ghost left_since = { λ f t c. left_after f.record.events t c };

    ghost faults = { λ f. faults_after f.record.events };

    ghost counts_now = { λ f t c le now. counts f.record.events t c le now };

    ghost only_now = { λ f c left. only f.record.events c left };

    ghost seen_may_stay = { λ f. seen_stays f.record.events };

    fn read(&mut self, alloc: Global, most: usize) -> Result<Vec<u8>, DeviceFault> {
        if !self.is_reading {
            self.record.note(&[FAILED, 0], &[]);
            return Err(DeviceFault::Failed);
        }
        let want = self.next_len(most);
        let mut piece = vec![in alloc; 0u8; want]?;
        if self
            .file
            .read_exact_at(&mut piece, self.read as u64)
            .is_err()
        {
            self.record.note(&[FAILED, 0], &[]);
            return Err(DeviceFault::Failed);
        }
        self.record.note(&[FOUND, self.read as u64], &piece);
        self.read += want;
        Ok(piece)
    }

    fn write_at(&mut self, at: usize, bytes: &[u8]) -> Result<(), DeviceFault> {
        if !self.may_write() {
            self.record.note(&[FAILED, 0], &[]);
            return Err(DeviceFault::Failed);
        }
        self.is_reading = false;
        match self.file.write_all_at(bytes, at as u64) {
            Ok(()) => {
                self.record.note(&[WRITTEN, at as u64], bytes);
                Ok(())
            }
            Err(_) => {
                self.unknown_from = Some(at);
                self.record.note(&[NOT_WRITTEN, at as u64], bytes);
                Err(DeviceFault::Failed)
            }
        }
    }

    fn cut(&mut self, len: usize) -> Result<(), DeviceFault> {
        if !self.may_cut(len) {
            self.record.note(&[NOT_CUT, len as u64], &[]);
            return Err(DeviceFault::Failed);
        }
        self.is_reading = false;
        match self.file.set_len(len as u64) {
            Ok(()) => {
                self.unknown_from = None;
                self.record.note(&[CUT, len as u64], &[]);
                Ok(())
            }
            Err(_) => {
                self.unknown_from = Some(len);
                self.record.note(&[NOT_CUT, len as u64], &[]);
                Err(DeviceFault::Failed)
            }
        }
    }

    fn sync(&mut self) -> Result<(), DeviceFault> {
        if !self.may_write() {
            self.record.note(&[FAILED, 0], &[]);
            return Err(DeviceFault::Failed);
        }
        self.is_reading = false;
        match self.file.sync_data() {
            Ok(()) => {
                self.record.note(&[SYNCED, 0], &[]);
                Ok(())
            }
            Err(_) => {
                self.has_failed = true;
                self.record.note(&[FAILED, 0], &[]);
                Err(DeviceFault::Failed)
            }
        }
    }
}
