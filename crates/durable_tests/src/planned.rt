//! A device whose calls fail as planned.

ghost use Rattle.std.specs.Prelude.{◌≡◌, ◌+◌, ◌<◌, ◌≤◌, true};

use journal::{Device, DeviceFault};
use std::alloc::Global;

/// A device of which some calls fail, and do nothing.
#[derive(Drop)]
pub struct Planned<D: Device> {
    device: D,
    /// A bit for each call from now on, that of the next call the lowest: where it is set, the call fails.
    plan: u32,
    failures: u64,
}

impl<D: Device> Planned<D> {
    /// The device under this plan.
    pub fn new(device: D, plan: u32) -> Planned<D>
        ensures { result.device ≡ device }
    {
        Planned {
            device,
            plan,
            failures: 0,
        }
    }

    /// The device.
    pub fn inner(&self) -> &D {
        &self.device
    }

    /// Whether the next call fails.
    fn fails(&mut self) -> bool
        ensures device { self.new.device ≡ self.old.device }
        ensures later { self.old.failures ≤ self.new.failures }
        ensures counted { result ≡ true → self.old.failures < self.new.failures }
    {
        let fails = self.plan & 1 == 1 && self.failures < u64::MAX;
        self.plan >>= 1;
        if fails {
            self.failures += 1;
        }
        fails
    }
}

impl<D: Device> Device for Planned<D> {
    ghost found = { λ p. D.found p.device };

    ghost seen = { λ p. D.seen p.device };

    ghost may_leave = { λ p c. D.may_leave p.device c };

    ghost moment = { λ p. D.moment p.device };

    ghost left_since = { λ p t c. D.left_since p.device t c };

    ghost faults = { λ p. p.failures + D.faults p.device };

    ghost counts_now = { λ p t c le now. D.counts_now p.device t c le now };

    ghost only_now = { λ p c left. D.only_now p.device c left };

    ghost seen_may_stay = { λ p. D.seen_may_stay p.device };

    fn read(&mut self, alloc: Global, most: usize) -> Result<Vec<u8>, DeviceFault> {
        if self.fails() {
            return Err(DeviceFault::Failed);
        }
        self.device.read(alloc, most)
    }

    fn write_at(&mut self, at: usize, bytes: &[u8]) -> Result<(), DeviceFault> {
        if self.fails() {
            return Err(DeviceFault::Failed);
        }
        self.device.write_at(at, bytes)
    }

    fn cut(&mut self, len: usize) -> Result<(), DeviceFault> {
        if self.fails() {
            return Err(DeviceFault::Failed);
        }
        self.device.cut(len)
    }

    fn sync(&mut self) -> Result<(), DeviceFault> {
        if self.fails() {
            return Err(DeviceFault::Failed);
        }
        self.device.sync()
    }
}
