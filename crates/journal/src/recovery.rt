//! Repair of the end of a file that a crash may have left.

ghost use Rattle.std.specs.Prelude.{◌≡◌, ◌++◌, ◌∷◌, [], List, ℕ, length, take, true, OnOk};
ghost use Rattle.journal.specs.Device.{Only, LeavesOnly, HasCause};
ghost use Rattle.journal.specs.Journal.{recovered, covered, can_be_left, StandsFor};

use crate::device::Device;
use crate::fault::DeviceFault;

/// Brings a file that a crash may have left to rest. Then a closed gate stands behind its blocks, and nothing behind that. A crash may come
/// during the call too.
pub(crate) fn settle<D: Device>(device: &mut D, len: usize, end: usize) -> Result<(), DeviceFault>
    requires durable { Only (D.seen device.old) (D.may_leave device.old) }
    requires place { (len ≡ length (D.seen device.old)) × (end ≡ covered (D.seen device.old)) }
    requires left { can_be_left (D.seen device.old) ≡ true }

    ensures closed { OnOk result (D.seen device.new ≡ take end (D.seen device.old) ++ 0 ∷ []) }
    ensures durable { OnOk result (Only (D.seen device.new) (D.may_leave device.new)) }
    ensures any_moment { LeavesOnly D.moment D.left_since device.old device.new (StandsFor (recovered (D.seen device.old))) }
    ensures cause { HasCause (D.faults device.old) (D.faults device.new) result }
{
    close_end(device, len, end)?;
    device.sync()?;
    Ok(())
}

/// Leaves a closed gate behind the blocks, and nothing behind it. A new file gets a closed gate. Any other file is cut behind the one that
/// it has, which is never written over.
fn close_end<D: Device>(device: &mut D, len: usize, end: usize) -> Result<(), DeviceFault>
    requires durable { Only (D.seen device.old) (D.may_leave device.old) }
    requires len { len ≡ length (D.seen device.old) }
    requires end { end ≡ covered (D.seen device.old) }
    requires left { can_be_left (D.seen device.old) ≡ true }

    ensures closed { OnOk result (D.seen device.new ≡ take end (D.seen device.old) ++ 0 ∷ []) }
    ensures each { (c : List ℕ) → D.may_leave device.new c → StandsFor (recovered (D.seen device.old)) c }
    ensures any_moment { LeavesOnly D.moment D.left_since device.old device.new (StandsFor (recovered (D.seen device.old))) }
    ensures cause { HasCause (D.faults device.old) (D.faults device.new) result }
{
    if len <= 1 {
        device.write_at(0, &[0])?;
        Ok(())
    } else {
        device.cut(end + 1)?;
        Ok(())
    }
}
