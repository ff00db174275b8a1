//! Statements, by their fields alone.

ghost use Rattle.std.specs.Prelude.{◌≡◌, IfOk, IsTrue, option_copied};
ghost use Rattle.std.specs.Option.{option_map};
ghost use Rattle.item_forms.specs.Pieces.{fits_prop};
ghost use Rattle.item_forms.specs.Spelling.{Fits};
ghost use Rattle.item_forms.specs.declared.forms.Fields.TheVariants as form;
ghost use Rattle.kept_items.specs.Positions.{shown, stated};
ghost use Rattle.kept_items.specs.within.Bare.{IsBare, is_statement};

use crate::said::Said;
use authenticators::Authenticator;
use evidence_item::{Checked, Fields, Form, Item};
use outcome::Memory;
use replay_verifier::Verdict;
use std::alloc::Global;
use std::marker::Model;

/// A statement that has no verdict and no findings, as checking leaves each one. A contract sees the checked item.
#[derive(Drop)]
pub(crate) struct KeptStatement {
    auth: Authenticator,
    ghost fits: { Fits (form.Auth auth) } by { fits_prop (form.Auth auth) },
}

impl Model for KeptStatement {
    ghost use Rattle.evidence_item.specs.Checking.{Checked};
    ghost use Rattle.std.specs.Coded.{codes};
    ghost use Rattle.item_forms.specs.Pieces.{fits_code};
    ghost use Rattle.kept_items.specs.within.Bare.{bare_of};

    ghost Value = { Checked };

    ghost coded = { Prim.hlevel (codes, fits_code) };

    ghost view = { λ k. bare_of k.auth k.fits };
}

/// Returns whether the item is a statement.
fn is_statement(item: &Item) -> bool
    ensures { result ≡ is_statement item.now.fields }
{
    match item.form() {
        Form::Auth(_) => true,
        Form::Segment(_) | Form::Audit(_) | Form::Send(_) | Form::Ack(_) => false,
    }
}

/// Returns whether the item is a statement that has no verdict and no findings.
pub(crate) fn is_bare<P>(checked: &Checked<P>) -> bool
    ensures { IsTrue result → IsBare checked.now }
{
    is_statement(checked.item()) && checked.verdict().is_none() && checked.findings().is_none()
}

/// Returns the item that is a statement of these fields.
fn item_of(auth: Authenticator) -> Item
    requires { Fits (form.Auth auth) }
    ensures { result.fields ≡ form.Auth auth }
{
    Item::auth(auth).unwrap()
}

impl KeptStatement {
    /// Takes the statement out of an item that is one.
    pub(crate) fn from_checked<P>(checked: Checked<P>) -> KeptStatement
        requires { IsBare checked }
        ensures { result ≡ checked }
    {
        match checked.into_item().into_fields() {
            Fields::Auth(auth) => KeptStatement { auth },
            _ => unreachable!(),
        }
    }

    /// Returns its fields.
    pub(crate) fn auth(&self) -> &Authenticator
        ensures fields { self.now.item.fields ≡ form.Auth result.now }
        ensures fits { Fits (form.Auth result.now) }
    {
        &self.auth
    }

    /// Returns `None`: a statement is not replayed.
    pub(crate) fn verdict(&self) -> Option<&Verdict>
        ensures { option_copied result ≡ self.now.verdict }
    {
        let _auth = &self.auth;
        None
    }

    /// Returns the statement at a position. It stands at the first one.
    pub(crate) fn statement(&self, position: u32) -> Option<Said<'_>>
        ensures { option_map shown result ≡ stated self.now position }
    {
        let auth = &self.auth;
        if position != 0 {
            return None;
        }
        Some(Said {
            node: auth.node,
            seq: auth.seq,
            hash: auth.hash,
            sig: auth.sig.as_slice(),
        })
    }

    /// Returns the checked item. It takes no memory.
    pub(crate) fn into_checked<P>(self) -> Checked<P>
        ensures { result ≡ self }
    {
        Checked::from_parts(item_of(self.auth), None)
    }

    /// Returns a copy.
    pub(crate) fn try_clone(&self, alloc: Global) -> Result<KeptStatement, Memory>
        ensures { IfOk result (λ k. k ≡ self.now) }
    {
        let auth = self.auth.try_clone(alloc)?;
        Ok(KeptStatement { auth })
    }
}
