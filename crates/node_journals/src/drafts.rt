//! Drafts of records: the encoding of a record is written before the node is given it.

ghost use Rattle.std.specs.Prelude.{◌≡◌, ◌↔◌, IfErr, IfOk, IsErrAnd, None, OnOk, Some};
ghost use Rattle.node_journals.specs.Giving.{given_of};
ghost use Rattle.node_journals.specs.Records.{FitsRecord, recorded_text};
ghost use Rattle.node_journals.specs.declared.fault.DraftFault.TheVariants as fault;

use crate::fault::DraftFault;
use crate::giving::{Input, input_of};
use crate::keys::Secret;
use crate::recorded::Recorded;
use std::alloc::Global;
use std::marker::Model;

/// What a node is given after the encoding of its record is written and synced. A contract sees what that is.
#[derive(Drop)]
pub struct Draft {
    pub(crate) input: Input,
}

impl Model for Draft {
    ghost use Rattle.commitment.specs.Calls.{Given};
    ghost use Rattle.node_journals.specs.within.Inputs.{given_by};

    ghost Value = { Given };

    ghost view = { λ d. given_by d.input };
}

/// A record that was drafted.
#[derive(Drop)]
pub struct Drafted {
    /// The record's encoding, which must be written and synced first.
    pub text: Vec<u8>,
    /// What the node is given then.
    pub draft: Draft,
}

/// A record that was not drafted, and the reason. Nothing has happened.
#[derive(Drop)]
pub struct DraftRefused {
    /// The reason.
    pub fault: DraftFault,
    /// The record, given back.
    pub recorded: Recorded,
}

impl Recorded {
    /// Drafts a record. If the record names a further key, the key is made here from the secrets.
    ///
    /// If it refuses, the record is given back, with the first of these faults:
    ///
    /// - `TooLong` (42), if the record has no encoding. This is reported even if memory runs out.
    /// - `OtherKey` (128), if the record names a key that none of the secrets makes.
    ///
    /// `Memory` (99) may come in place of the latter, or of the result.
    pub fn draft(self, alloc: Global, secrets: &[Secret]) -> Result<Drafted, DraftRefused>
        ensures text { IfOk result (λ d. d.text.items ≡ recorded_text self) }
        ensures given { IfOk result (λ d. given_of secrets.now self ≡ Some d.draft) }
        ensures fits { OnOk result (FitsRecord self) }
        ensures too_long { IsErrAnd result (λ r. r.fault ≡ fault.TooLong) ↔ (FitsRecord self → ⊥) }
        ensures other_key { IfErr result (λ r. r.fault ≡ fault.OtherKey → given_of secrets.now self ≡ None) }
        ensures given_back { IfErr result (λ r. r.recorded ≡ self) }
    {
        if !self.fits() {
            return Err(DraftRefused {
                fault: DraftFault::TooLong,
                recorded: self,
            });
        }
        let Ok(text) = self.to_bytes(alloc) else {
            return Err(DraftRefused {
                fault: DraftFault::Memory,
                recorded: self,
            });
        };
        match input_of(alloc, secrets, self) {
            Ok(input) => Ok(Drafted {
                text,
                draft: Draft { input },
            }),
            Err(not) => Err(DraftRefused {
                fault: not.fault,
                recorded: not.recorded,
            }),
        }
    }
}
