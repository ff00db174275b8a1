//! Checking proofs.

ghost use Rattle.std.specs.Prelude.{◌≡◌};
ghost use Rattle.bulwynef_c.specs.Answers.{IsCheckedBy};
ghost use Rattle.mailbox.specs.MailboxMeaning.{mailbox};
ghost use Rattle.ref_programs.specs.RelayMeaning.{relay};
ghost use Rattle.ref_programs.specs.TallyMeaning.{tally};

use crate::programs::{Followed, program_of};
use byte_calls::check_proof;
use mailbox::Mailbox;
use ref_programs::{Relay, Tally};
use replay_verifier::Program;
use std::alloc::Global;

/// Checks a proof. It returns 0 and writes the node, or it returns the number of the refusal.
fn checked<P: Program>(
    alloc: Global,
    program: &P,
    directory: &[u8],
    proof: &[u8],
    node: &mut u32,
) -> u8
    ensures { IsCheckedBy P.means directory.now proof.now result node.old node.new }
{
    match check_proof(alloc, program, directory, proof) {
        Ok(found) => {
            *node = found.0;
            0
        }
        Err(refusal) => refusal.number(),
    }
}

/// `uint8_t bulwynef_check_proof(uint8_t program, const uint8_t *directory, size_t directory_len, const uint8_t *proof, size_t proof_len,
/// uint32_t *node)`: returns 0 and writes the node that the proof convicts, if nodes follow the program (1 Tally, 2 Relay, 3 Mailbox). It
/// refuses with 113 if there is no such program, and else as `byte_calls::check_proof` does. All memory that it asks for is given back
/// before it returns.
#[unsafe(no_mangle)]
pub extern "C" fn bulwynef_check_proof(
    alloc: Global,
    program: u8,
    directory: &[u8],
    proof: &[u8],
    node: &mut u32,
) -> u8
    ensures tally { program ≡ 1 → IsCheckedBy tally directory.now proof.now result node.old node.new }
    ensures relay { program ≡ 2 → IsCheckedBy relay directory.now proof.now result node.old node.new }
    ensures mailbox { program ≡ 3 → IsCheckedBy mailbox directory.now proof.now result node.old node.new }
    ensures other { (program ≡ 1 → ⊥) → (program ≡ 2 → ⊥) → (program ≡ 3 → ⊥) → (result ≡ 113) × (node.new ≡ node.old) }
{
    match program_of(program) {
        Ok(Followed::Tally) => checked(alloc, &Tally, directory, proof, node),
        Ok(Followed::Relay) => checked(alloc, &Relay, directory, proof, node),
        Ok(Followed::Mailbox) => checked(alloc, &Mailbox, directory, proof, node),
        Err(refusal) => refusal.number(),
    }
}
