//! A file as the journal sees it: what a read returns, and what a crash may leave.

ghost use Rattle.std.specs.Prelude.{◌≡◌, ◌≤◌, ◌<◌, ◌^◌, ◌++◌, List, ℕ, length, take, IfOk, OnErr, OnOk};
ghost use Rattle.journal.specs.Device.{Only, Follows, Torn, Cut, Holds, Elapses, HasCause};

use crate::fault::DeviceFault;
use std::alloc::Global;

/// One file, and what a crash does to it. What was not synced may be there after a crash, or not, or in part.
pub trait Device {
    /// What has been read, from the file's beginning on.
    ghost found: { Self → List ℕ };

    /// The bytes that a read of all would return.
    ghost seen: { Self → List ℕ };

    /// What a crash at this moment may leave.
    ghost may_leave: { Self → List ℕ → Type 0 };

    /// The moment, as a number that no call makes smaller.
    ghost moment: { Self → ℕ };

    /// What a crash might have left at some moment since that one, during a call or between two calls.
    ghost left_since: { Self → ℕ → List ℕ → Type 0 };

    /// How often the disk has failed.
    ghost faults: { Self → ℕ };

    /// Reads on, behind what has been read, and returns at most `most` bytes. If it returns fewer, the end of the file is reached. Then
    /// what was found is all that there is, and it is on the disk. A caller writes nothing before that.
    fn read(&mut self, alloc: Global, most: usize) -> Result<Vec<u8>, DeviceFault>
        ensures found { IfOk result (λ v. found self.new ≡ found self.old ++ v.items) }
        ensures most { IfOk result (λ v. length v.items ≤ most) }
        ensures end { IfOk result (λ v. length v.items < most → (found self.new ≡ seen self.new) × Only (seen self.new) (may_leave self.new)) }
        ensures small { OnOk result (length (found self.new) < 2 ^ 63) }
        ensures cause { HasCause (faults self.old) (faults self.new) result };

    /// Writes the bytes at place `at`, over what is there and past the end. Until a sync, a crash may leave any bytes in the range that is
    /// written. If the write fails, any bytes may stand there too.
    fn write_at(&mut self, at: usize, bytes: &[u8]) -> Result<(), DeviceFault>
        requires { at ≤ length (seen self.old) }
        ensures written { OnOk result (Holds (seen self.old) at bytes.now (seen self.new)) }
        ensures torn { OnErr result (Torn at (length bytes.now) (seen self.old) (seen self.new)) }
        ensures crash { Follows (Torn at (length bytes.now)) (may_leave self.old) (may_leave self.new) }
        ensures time { Elapses (moment self.old) (moment self.new) (left_since self.old) (left_since self.new) (may_leave self.new) }
        ensures cause { HasCause (faults self.old) (faults self.new) result };

    /// Cuts the file to a length. Until a sync, a crash may leave any length between the old one and the new one. If the cut fails, the
    /// file may have any such length too.
    fn cut(&mut self, len: usize) -> Result<(), DeviceFault>
        requires { len ≤ length (seen self.old) }
        ensures cut { OnOk result (seen self.new ≡ take len (seen self.old)) }
        ensures not_cut { OnErr result (Cut len (seen self.old) (seen self.new)) }
        ensures crash { Follows (Cut len) (may_leave self.old) (may_leave self.new) }
        ensures time { Elapses (moment self.old) (moment self.new) (left_since self.old) (left_since self.new) (may_leave self.new) }
        ensures cause { HasCause (faults self.old) (faults self.new) result };

    /// Brings the file to the disk. After that, a crash leaves what a read returns. If it fails, a crash leaves nothing that it could not
    /// leave before.
    fn sync(&mut self) -> Result<(), DeviceFault>
        ensures durable { OnOk result (Only (seen self.old) (may_leave self.new)) }
        ensures seen { seen self.new ≡ seen self.old }
        ensures crash { (c : List ℕ) → may_leave self.new c → may_leave self.old c }
        ensures time { Elapses (moment self.old) (moment self.new) (left_since self.old) (left_since self.new) (may_leave self.new) }
        ensures cause { HasCause (faults self.old) (faults self.new) result };

    /// This moment is one of those since an earlier one. So what a crash may leave now counts as left since then.
    ghost counts_now: { (file : Self) (t : ℕ) (c : List ℕ) → t ≤ moment file → may_leave file c → left_since file t c };

    /// Since this moment there is no other. So a crash can have left only what it may leave now.
    ghost only_now: { (file : Self) (c : List ℕ) → left_since file (moment file) c → may_leave file c };

    /// A crash may leave what a read would return. So no call leaves a crash without an outcome.
    ghost seen_may_stay: { (file : Self) → may_leave file (seen file) };
}
