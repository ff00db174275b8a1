//! Reading of a file as a journal. It is read one text after the other, and then opened.

ghost use Rattle.std.specs.Prelude.{◌≡◌, ◌⊎◌, ◌+◌, ◌<◌, ◌≤◌, ◌^◌, ◌++◌, [], ◌∷◌, List, ℕ, length, take, drop, None, Ok, IfErr, IfOk, IfSome, IsErrOf, MatchResult};
ghost use Rattle.journal.specs.Device.{LeavesOnly, Only};
ghost use Rattle.journal.specs.Journal.{recovered, covered, can_be_left, ends_closed, IsSettled, StandsFor};
ghost use Rattle.journal.specs.Reading.{IsBehind, IsDamaged, IsHead, IsRead, IsReading};

use crate::blocks::{HEAD, MOST_GROUP, is_closed_end};
use crate::device::Device;
use crate::fault::{DeviceFault, OpenFault};
use crate::journal::Journal;
use crate::recovery::settle;
use std::alloc::Global;

/// A file that is being read. Nothing of it is cut or written before [`finish`](Reading::finish).
#[derive(Drop)]
pub struct Reading<D: Device> {
    device: D,
    /// How many bytes the blocks take whose texts were given.
    end: usize,
    /// How many bytes the file has, once all of them were read.
    len: usize,
}

/// A device that was not opened as a journal, and why.
#[derive(Drop)]
pub struct Refused<D: Device> {
    /// Why it was not opened.
    pub fault: DeviceFault,
    /// The device.
    pub device: D,
}

impl<D: Device> Reading<D> {
    /// Begins to read a device of which nothing was read.
    pub fn new(device: D) -> Reading<D>
        requires { D.found device ≡ [] }
        ensures reading { IsReading D.found result }
        ensures device { result.device ≡ device }
    {
        Reading {
            device,
            end: 0,
            len: 0,
        }
    }

    /// Returns the next text, or `None` behind the last one. With `None`, all of the file was read, and it may not be called again. It
    /// refuses a file that no crash leaves as `Damaged`. After an error, only [`into_device`](Reading::into_device) may be called.
    pub fn next(&mut self, alloc: Global) -> Result<Option<Vec<u8>>, OpenFault>
        requires { IsReading D.found self.old }

        ensures text { IfOk result (λ next. IfSome next (λ text. IsReading D.found self.new
            × (recovered (D.found self.new.device) ≡ recovered (D.found self.old.device) ++ text.items ∷ []))) }
        ensures grows { IfOk result (λ next. IfSome next (λ _. self.old.end < self.new.end)) }
        ensures none { result ≡ Ok None → IsRead D.seen D.may_leave self.new × (recovered (D.seen self.new.device) ≡ recovered (D.found self.old.device)) }
        ensures damaged { IsErrOf result OpenFault.Damaged → IsDamaged (D.found self.new.device) (D.seen self.new.device) }
        ensures failed { IsErrOf result OpenFault.Failed → D.faults self.old.device < D.faults self.new.device }
    {
        let head = self.device.read(alloc, HEAD)?;
        if let [gate, a, b, c, d, e, f, g, h] = head.as_slice() {
            if *gate == 0 {
                return self.end_closed(alloc, &head);
            }
            let size = u32::from_be_bytes([*a, *b, *c, *d]) as usize;
            let lack = u32::from_be_bytes([*e, *f, *g, *h]) as usize;
            if size + lack != u32::MAX as usize {
                return Err(OpenFault::Damaged);
            }
            return self.text(alloc, &head, size);
        }
        self.end_short(&head)
    }

    /// Opens the journal, once all of the file was read. It cuts off what a crash left behind the last block. It writes the closed gate of
    /// a new file.
    pub fn finish(self) -> Result<Journal<D>, Refused<D>>
        requires { IsRead D.seen D.may_leave self }

        ensures settled { IfOk result (λ journal. IsSettled D.seen D.may_leave journal) }
        ensures same { IfOk result (λ journal. recovered (D.seen journal.device) ≡ recovered (D.seen self.device)) }

        // A crash at any moment leaves the same texts.
        ensures any_moment { MatchResult result
            (λ journal. LeavesOnly D.moment D.left_since self.device journal.device (StandsFor (recovered (D.seen self.device))))
            (λ e. LeavesOnly D.moment D.left_since self.device e.device (StandsFor (recovered (D.seen self.device)))) }

        ensures failed { IfErr result (λ e. e.fault ≡ DeviceFault.Failed → D.faults self.device < D.faults e.device) }
    {
        let Reading { device, end, len } = self;
        let mut device = device;
        match settle(&mut device, len, end) {
            Ok(()) => Ok(Journal::at(device, end)),
            Err(fault) => Err(Refused { fault, device }),
        }
    }

    /// Returns the device, read as far as it was.
    pub fn into_device(self) -> D
        ensures { result ≡ self.device }
    {
        self.device
    }

    /// Returns the text behind the head of an open block.
    fn text(
        &mut self,
        alloc: Global,
        head: &[u8],
        size: usize,
    ) -> Result<Option<Vec<u8>>, OpenFault>
        requires before { IsBehind D.found self.old head.now }
        requires open { IsHead head.now size }

        ensures text { IfOk result (λ next. IfSome next (λ text. IsReading D.found self.new
            × (recovered (D.found self.new.device) ≡ recovered (take self.old.end (D.found self.old.device)) ++ text.items ∷ []))) }
        ensures grows { IfOk result (λ next. self.old.end < self.new.end) }
        ensures some { result ≡ Ok None → ⊥ }
        ensures damaged { IsErrOf result OpenFault.Damaged → IsDamaged (D.found self.new.device) (D.seen self.new.device) }
        ensures failed { IsErrOf result OpenFault.Failed → D.faults self.old.device < D.faults self.new.device }
    {
        let text = self.device.read(alloc, size)?;
        if text.len() < size {
            return Err(OpenFault::Damaged);
        }
        self.end = self.end + HEAD + size;
        Ok(Some(text))
    }

    /// Reads the end of a file, if a closed gate and at least eight more bytes stand behind its blocks.
    fn end_closed(&mut self, alloc: Global, head: &[u8]) -> Result<Option<Vec<u8>>, OpenFault>
        requires before { IsBehind D.found self.old head.now }
        requires closed { take 1 head.now ≡ 0 ∷ [] }
        requires len { length head.now ≡ 9 }

        ensures none { IfOk result (λ next. next ≡ None) }
        ensures read { result ≡ Ok None → IsRead D.seen D.may_leave self.new × (recovered (D.seen self.new.device) ≡ recovered (take self.old.end (D.found self.old.device))) }
        ensures damaged { IsErrOf result OpenFault.Damaged → IsDamaged (D.found self.new.device) (D.seen self.new.device) }
        ensures failed { IsErrOf result OpenFault.Failed → D.faults self.old.device < D.faults self.new.device }
    {
        let rest = self.device.read(alloc, MOST_GROUP)?;
        if rest.len() > MOST_GROUP - (HEAD - 1) {
            return Err(OpenFault::Damaged);
        }
        self.len = self.end + HEAD + rest.len();
        Ok(None)
    }

    /// Takes the end of a file, if fewer bytes stand behind its blocks than a head takes.
    fn end_short(&mut self, head: &[u8]) -> Result<Option<Vec<u8>>, OpenFault>
        requires before { IsBehind D.found self.old head.now }
        requires short { length head.now < 9 }
        requires all { (D.found self.old.device ≡ D.seen self.old.device) × Only (D.seen self.old.device) (D.may_leave self.old.device) }
        requires small { length (D.found self.old.device) < 2 ^ 63 }

        ensures device { self.new.device ≡ self.old.device }
        ensures none { IfOk result (λ next. next ≡ None) }
        ensures read { result ≡ Ok None → IsRead D.seen D.may_leave self.new × (recovered (D.seen self.new.device) ≡ recovered (take self.old.end (D.found self.old.device))) }
        ensures fault { IfErr result (λ e. (e ≡ OpenFault.Damaged) × IsDamaged (D.found self.new.device) (D.seen self.new.device)) }
    {
        let len = self.end + head.len();
        if len > 1 && !is_closed_end(head) {
            return Err(OpenFault::Damaged);
        }
        self.len = len;
        Ok(None)
    }
}
