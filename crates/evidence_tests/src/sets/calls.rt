//! The words for indications.

use evidence_set::Indication;
use std::test::Fail;

#[test]
fn indications_are_printed_as_words(rt: HostRuntime) -> Result<(), Fail> {
    let trusted = format!(in rt.alloc(); "{}", Indication::Trusted)?;
    assert_eq!(rt; trusted.as_str(), "trusted");
    let suspected = format!(in rt.alloc(); "{}", Indication::Suspected)?;
    assert_eq!(rt; suspected.as_str(), "suspected");
    let exposed = format!(in rt.alloc(); "{}", Indication::Exposed)?;
    assert_eq!(rt; exposed.as_str(), "exposed");
    Ok(())
}

#[test]
fn indications_are_told_apart(rt: HostRuntime) -> Result<(), Fail> {
    let suspected = Indication::Suspected;
    let copy = suspected;
    assert_eq!(rt; suspected, copy);
    assert_ne!(rt; suspected, Indication::Trusted);
    assert_ne!(rt; suspected, Indication::Exposed);
    Ok(())
}
