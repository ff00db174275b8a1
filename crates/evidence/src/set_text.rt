//! The encoding of a set, and the eight bytes with which it begins.

ghost use Rattle.std.specs.Prelude.{◌≡◌, IfErr, IfOk, IsOk, OnOk};
ghost use Rattle.std.specs.List.{All};
ghost use Rattle.std.specs.List.Sorted.{IsStrictlySortedBy};
ghost use Rattle.item_forms.specs.Pieces.{by_bytes};
ghost use Rattle.evidence_item.specs.Checking.{IsChecked};
ghost use Rattle.containers.specs.declared.fault.Cause.TheVariants as cause;
ghost use Rattle.containers.specs.Refusals.{IsBehindFront, Refuses};
ghost use Rattle.evidence.specs.Exports.{magic_of, set_text};
ghost use Rattle.evidence_set.specs.ItemSets.{pieces, set_of};
ghost use Rattle.evidence.specs.Importing.{import_set};

use crate::laws::sets_have_one_text;
use authenticators::Directory;
use containers::{ImportFault, read_all};
use evidence_item::Checked;
use log_chain::laws::bytes_fit;
use replay_verifier::Program;
use std::alloc::Global;

/// The eight bytes with which the encoding of a set begins.
pub const MAGIC: [u8; 8] = *b"PRSTORE2";

/// The eight bytes with which it began before a node had more than one key.
const OLD_MAGIC: [u8; 8] = *b"PRSTORE1";

/// Returns the eight bytes with which the encoding of a set is expected to begin: `PRSTORE1` if `bytes` begins so, else
/// [`MAGIC`]. It takes no memory.
pub fn magic_of(bytes: &[u8]) -> [u8; 8]
    ensures { result ≡ magic_of bytes.now }
{
    if bytes.starts_with(&OLD_MAGIC) {
        OLD_MAGIC
    } else {
        MAGIC
    }
}

/// Returns the items of the encoding of a set, each checked under the directory, in the order of their encodings.
pub(crate) fn items_of<P: Program>(
    alloc: Global,
    program: &P,
    directory: &Directory,
    bytes: &[u8],
) -> Result<Vec<Checked<P>>, ImportFault>
    ensures checked { IfOk result (λ items. All (IsChecked directory.now P.means) items.items) }
    ensures ascending { IfOk result (λ items. IsStrictlySortedBy by_bytes (pieces items.items)) }
    ensures text { IfOk result (λ items. bytes.now ≡ set_text (magic_of bytes.now) (set_of items.items)) }
    ensures read { OnOk result (IsOk (import_set directory.now bytes.now)) }
    ensures fault { IfErr result (λ f. Refuses f (import_set directory.now bytes.now)) }
    ensures memory { IfErr result (λ f. f.cause ≡ cause.Memory → IsBehindFront (import_set directory.now bytes.now)) }
{
    bytes_fit(bytes);
    sets_have_one_text();
    let items = read_all(alloc, program, directory, magic_of(bytes), bytes)?;
    Ok(items)
}
