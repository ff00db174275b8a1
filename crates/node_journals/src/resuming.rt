//! Whether a node may go on.

ghost use Rattle.std.specs.Prelude.{◌≡◌};
ghost use Rattle.std.specs.List.{list_all, list_any};
ghost use Rattle.node_journals.specs.Resuming.{is_known, is_same_stamp};

use authenticators::{Authenticator, NodeId};
use commitment::Node;
use replay_verifier::Program;

/// Returns whether the two have the same number and hash.
fn is_same_stamp(a: &Authenticator, b: &Authenticator) -> bool
    ensures { result ≡ is_same_stamp a.now b.now }
{
    a.seq == b.seq && a.hash == b.hash
}

/// Returns whether one of these has the statement's number and hash.
fn is_signed(signed: &[Authenticator], statement: &Authenticator) -> bool
    ensures { result ≡ list_any (λ a. is_same_stamp a statement.now) signed.now }
{
    signed.iter().any(|s| is_same_stamp(s, statement))
}

/// Returns whether the statement is another node's, or has a number and a hash that this node signed.
fn is_known(me: NodeId, signed: &[Authenticator], statement: &Authenticator) -> bool
    ensures { result ≡ is_known me signed.now statement.now }
{
    !(statement.node == me) || is_signed(signed, statement)
}

/// Returns whether a rebuilt node may go on. `held` are statements that witnesses hold. It returns true if the node signed the
/// number and the hash of each statement of it among these. It takes no memory.
///
/// If it returns false for valid statements, the journal is not whole: the node went on after its end, and signed. Then no key
/// of the node may ever sign again.
///
/// **Whoever restores an old journal without asking witnesses can break the node's key.** The rebuilt node does not know what
/// it signed after the end of that journal. It would sign other texts with the same leaves. Two texts signed with one leaf let
/// anybody forge signatures of the node.
///
/// True says only that the rebuilt node signed the numbers and hashes of its statements in `held`. It says nothing of what was
/// signed and reached none of the witnesses that were asked. So ask all of them, and pass all valid statements that they hold,
/// and only these. Or never go back to a copy.
pub fn is_safe_to_resume<P: Program + Drop>(node: &Node<P>, held: &[Authenticator]) -> bool
    ensures { result ≡ list_all (is_known node.now.account.me node.now.account.signed) held.now }
{
    let me = node.id();
    let signed = node.signed();
    held.iter().all(|statement| is_known(me, signed, statement))
}
