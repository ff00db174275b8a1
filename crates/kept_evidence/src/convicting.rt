//! Proofs against a node, made of copies of statements and segments.

ghost use Rattle.std.specs.Prelude.{◌≡◌, ◌∷◌, ◌≤◌, [], IfOk, IsTrue, length};
ghost use Rattle.authenticators.specs.declared.signature.TheConstants.{LONGEST_SIGNATURE_TEXT};
ghost use Rattle.item_forms.specs.declared.forms.Fields.TheVariants as form;
ghost use Rattle.proofs.specs.ProofTexts.{items_of};
ghost use Rattle.evidence_item.specs.Checking.{is_segment};
ghost use Rattle.evidence_item.specs.Statements.{IsSigned};

use authenticators::laws::keys_sign;
use authenticators::{Authenticator, Directory};
use evidence_item::Item;
use log_chain::laws::{bytes_fit, hash_fits};
use outcome::Memory;
use proofs::Proof;
use std::alloc::Global;

/// Returns the item of a statement whose signature is within its limit.
fn item_of(auth: Authenticator) -> Item
    requires { length auth.sig ≤ LONGEST_SIGNATURE_TEXT }
    ensures { result.fields ≡ form.Auth auth }
{
    let _node = auth.node.0;
    let _seq = auth.seq;
    hash_fits(auth.hash);
    bytes_fit(auth.sig.as_slice());
    Item::auth(auth).unwrap()
}

/// Returns the item of a copy of a signed statement. No signature that a key verifies is above the limit.
fn signed_item(
    alloc: Global,
    directory: &Directory,
    statement: &Authenticator,
) -> Result<Item, Memory>
    requires { IsSigned directory.now statement.now }
    ensures { IfOk result (λ item. item.fields ≡ form.Auth statement.now) }
{
    keys_sign();
    let copy = statement.try_clone(alloc)?;
    Ok(item_of(copy))
}

/// Makes a proof from copies of two signed statements.
pub fn proof_of_two(
    alloc: Global,
    directory: &Directory,
    one: &Authenticator,
    other: &Authenticator,
) -> Result<Proof, Memory>
    requires one { IsSigned directory.now one.now }
    requires other { IsSigned directory.now other.now }
    ensures { IfOk result (λ p. items_of p.parts ≡ form.Auth one.now ∷ form.Auth other.now ∷ []) }
{
    let one = signed_item(alloc, directory, one)?;
    let other = signed_item(alloc, directory, other)?;
    Ok(Proof::two_auths(one, other).unwrap())
}

/// Makes a proof from copies of a signed statement and of a segment.
pub fn proof_of_denial(
    alloc: Global,
    directory: &Directory,
    statement: &Authenticator,
    segment: &Item,
) -> Result<Proof, Memory>
    requires statement { IsSigned directory.now statement.now }
    requires segment { IsTrue (is_segment segment.now.fields) }
    ensures { IfOk result (λ p. items_of p.parts ≡ form.Auth statement.now ∷ segment.now.fields ∷ []) }
{
    let statement = signed_item(alloc, directory, statement)?;
    let segment = segment.try_clone(alloc)?;
    Ok(Proof::auth_segment(statement, segment).unwrap())
}

/// Makes a proof from a copy of a segment.
pub fn proof_of_segment(alloc: Global, segment: &Item) -> Result<Proof, Memory>
    requires { IsTrue (is_segment segment.now.fields) }
    ensures { IfOk result (λ p. items_of p.parts ≡ segment.now.fields ∷ []) }
{
    let segment = segment.try_clone(alloc)?;
    Ok(Proof::nonconforming(segment).unwrap())
}
