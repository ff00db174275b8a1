//! Items whose signatures are verified together before the items are checked.

ghost use Rattle.std.specs.Prelude.{◌≡◌, ◌<◌, Err, ◌++◌, IfOk, Ok, OnOk, Some, cond, false, length, map};
ghost use Rattle.std.specs.List.{flat_map, list_all};
ghost use Rattle.evidence_item.specs.declared.fault.ItemFault.TheVariants.{BadSignature};
ghost use Rattle.evidence_item.specs.Checking.{is_segment};
ghost use Rattle.evidence_item.specs.Examining.{AreExamined, IsKnown, findings_as};
ghost use Rattle.evidence_item.specs.within.Stating.{AreStages, IsStage, claims_in, claims_of, concluded, found_of};
ghost use Rattle.authenticators.specs.Statement.{is_claim_signed};
ghost use Rattle.item_forms.specs.Forms.{shown};

use crate::fault::ItemFault;
use crate::findings::Findings;
use crate::stating::{Stated, state};
use authenticators::{Claim, Directory};
use item_forms::{Form, Item};
use log_chain::Hash;
use outcome::Memory;
use std::alloc::Global;

/// What is found of a valid item that is no segment. For a message it is the hash of the sender's SEND entry. For an acknowledged message it is
/// that hash and the hash of the receiver's RECV entry.
#[derive(Clone, Copy, Debug)]
pub(crate) struct Found {
    sent: Option<Hash>,
    received: Option<Hash>,
}

/// What is known of an item before it is checked: whether it is valid, unless it is a segment. [`examine_all`] makes it, and
/// [`check_examined`](crate::check_examined) takes it.
#[derive(Clone, Copy, Debug)]
pub struct Examined {
    pub(crate) answer: Option<Result<Found, ItemFault>>,
}

impl Found {
    /// The same as findings.
    pub(crate) fn findings(self) -> Option<Findings>
        ensures { result ≡ findings_as self }
    {
        match (self.sent, self.received) {
            (None, _) => None,
            (Some(sent), None) => Some(Findings::Send(sent)),
            (Some(sent), Some(received)) => Some(Findings::Ack { sent, received }),
        }
    }
}

/// Returns whether all that is stated is signed. It verifies each signature alone, and the second one only if the first is good.
fn are_signed(directory: &Directory, stated: &Stated) -> bool
    ensures { result ≡ list_all (is_claim_signed directory.now) (claims_of stated.now) }
{
    match stated {
        Stated::Auth(claim) | Stated::Send(claim) | Stated::Audit(None, claim) => {
            claim.is_signed(directory)
        }
        Stated::Ack(first, last) | Stated::Audit(Some(first), last) => {
            first.is_signed(directory) && last.is_signed(directory)
        }
    }
}

/// Returns what is found of the item if all that it states is signed.
fn found_of(stated: &Stated) -> Found
    ensures { result ≡ found_of stated.now }
{
    let (sent, received) = match stated {
        Stated::Auth(_) | Stated::Audit(_, _) => (None, None),
        Stated::Send(sent) => (Some(sent.hash()), None),
        Stated::Ack(sent, received) => (Some(sent.hash()), Some(received.hash())),
    };
    Found { sent, received }
}

/// Concludes whether the item is valid. `signed` says whether all that it states is signed.
fn conclude(stated: &Stated, signed: bool) -> Result<Found, ItemFault>
    ensures { result ≡ cond signed (Ok (found_of stated.now)) (Err BadSignature) }
{
    if signed {
        Ok(found_of(stated))
    } else {
        Err(ItemFault::BadSignature)
    }
}

/// Returns what is found of an item that is no segment, or why it is not valid.
pub(crate) fn examine(directory: &Directory, form: Form<'_>) -> Result<Found, ItemFault>
    requires { is_segment (shown form) ≡ false }
    ensures { IsKnown directory.now (shown form.entry) result }
{
    match state(directory, form) {
        Err(fault) => Err(fault),
        Ok(stated) => conclude(&stated, are_signed(directory, &stated)),
    }
}

/// Returns what the item states, or why it is refused whatever its signatures are. For a segment it returns `None`.
fn stage<'a>(directory: &Directory, item: &'a Item) -> Option<Result<Stated<'a>, ItemFault>>
    ensures { IsStage directory.now item.now.fields result }
{
    match item.form() {
        Form::Segment(_) => None,
        form => Some(state(directory, form)),
    }
}

/// Does the same for each item.
fn stage_all<'a>(
    alloc: Global,
    directory: &Directory,
    items: &'a [Item],
) -> Result<Vec<Option<Result<Stated<'a>, ItemFault>>>, Memory>
    ensures { IfOk result (λ stages. AreStages directory.now items.now stages.items) }
{
    let mut stages = Vec::with_capacity(alloc, items.len())?;
    for k in 0..items.len() {
        stages.push(stage(directory, &items[k]))?;
    }
    Ok(stages)
}

/// Counts the statements that are to be verified.
fn count_in(stage: &Option<Result<Stated, ItemFault>>) -> usize
    ensures { result ≡ length (claims_in stage.now) }
{
    match stage {
        None | Some(Err(_)) => 0,
        Some(Ok(Stated::Auth(_) | Stated::Send(_) | Stated::Audit(None, _))) => 1,
        Some(Ok(Stated::Ack(_, _) | Stated::Audit(Some(_), _))) => 2,
    }
}

/// Appends the statements to the list.
fn put_claims<'a>(claims: &mut Vec<Claim<'a>>, stated: &Stated<'a>) -> Result<(), Memory>
    ensures { OnOk result (claims.new.items ≡ claims.old.items ++ claims_of stated.now) }
{
    match stated {
        Stated::Auth(claim) | Stated::Send(claim) | Stated::Audit(None, claim) => {
            claims.push(*claim)?;
        }
        Stated::Ack(first, last) | Stated::Audit(Some(first), last) => {
            claims.push(*first)?;
            claims.push(*last)?;
        }
    }
    Ok(())
}

/// Lists all statements that are to be verified, in the order of the items.
fn claims_in<'a>(
    alloc: Global,
    stages: &[Option<Result<Stated<'a>, ItemFault>>],
) -> Result<Vec<Claim<'a>>, Memory>
    ensures { IfOk result (λ claims. claims.items ≡ flat_map claims_in stages.now) }
{
    let mut claims = Vec::with_capacity(alloc, stages.len())?;
    for stage in stages {
        if let Some(Ok(stated)) = stage {
            put_claims(&mut claims, stated)?;
        }
    }
    Ok(claims)
}

/// Returns whether all are true.
fn are_true(answers: &[bool]) -> bool
    ensures { result ≡ list_all (λ b. b) answers.now }
{
    answers.iter().all(|answer| *answer)
}

/// Concludes what is known of an item. `answers` says of each of its statements whether it is signed.
fn conclude_stage(
    stage: &Option<Result<Stated, ItemFault>>,
    answers: &[bool],
) -> Option<Result<Found, ItemFault>>
    ensures { result ≡ concluded answers.now stage.now }
{
    match stage {
        None => None,
        Some(Err(fault)) => Some(Err(*fault)),
        Some(Ok(stated)) => Some(conclude(stated, are_true(answers))),
    }
}

/// Examines each item under the directory. Afterwards it is known of each item whether it is valid, unless it is a segment: nothing is known of
/// segments. It verifies each signature once, eight at a time (`Directory::verifies_all`). [`check_examined`](crate::check_examined) then
/// verifies them no more. It takes some 68 KB of memory, and some 600 bytes more for each item.
pub fn examine_all(
    alloc: Global,
    directory: &Directory,
    items: &[Item],
) -> Result<Vec<Examined>, Memory>
    ensures { IfOk result (λ all. AreExamined directory.now items.now all.items) }
{
    let stages = stage_all(alloc, directory, items)?;
    let claims = claims_in(alloc, &stages)?;
    let answers = directory.verifies_all(alloc, &claims)?;
    let mut all = Vec::with_capacity(alloc, items.len())?;
    let mut at = 0;
    for k in 0..stages.len() {
        let end = at + count_in(&stages[k]);
        let answer = conclude_stage(&stages[k], &answers[at..end]);
        all.push(Examined { answer })?;
        at = end;
    }
    Ok(all)
}
