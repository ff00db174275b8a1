//! How a bundle is written.

ghost use Rattle.std.specs.Prelude.{◌≡◌, ◌++◌, IfOk, OnOk, Err, MatchBool, MatchResult, codes};
ghost use Rattle.hex.specs.Hex.{encode_lower};
ghost use Rattle.bundles.specs.Spelling.{AreSentences, IsBundle, ended, text_of};
ghost use Rattle.bundles.specs.declared.fault.WriteFault.TheVariants as fault;

use crate::bundle::Bundle;
use crate::fault::WriteFault;
use crate::fields::is_name;
use crate::lines::sentences_of;
use log_chain::laws::bytes_fit;
use std::alloc::{AllocError, Global};

/// Returns whether the text is of sentences, each with its end.
fn are_sentences(text: &[u8]) -> bool
    ensures { MatchBool result (AreSentences text.now) (AreSentences text.now → ⊥) }
{
    let (_, rest, _) = sentences_of(text);
    rest.is_empty()
}

/// Refuses a bundle of which a part is not as bundles have it.
fn check(bundle: &Bundle) -> Result<(), WriteFault>
    ensures { MatchResult result (λ _. IsBundle bundle.now) (λ f. (f ≡ fault.BadBundle) × (IsBundle bundle.now → ⊥)) }
{
    bytes_fit(bundle.directory);
    bytes_fit(bundle.proof);
    if !is_name(bundle.program) {
        return Err(WriteFault::BadBundle);
    }
    if !are_sentences(bundle.sentences) {
        return Err(WriteFault::BadBundle);
    }
    Ok(())
}

/// Writes the line of the bytes in digits.
fn put_digits(alloc: Global, text: &mut Vec<u8>, bytes: &[u8]) -> Result<(), AllocError>
    ensures { OnOk result (text.new.items ≡ text.old.items ++ ended (encode_lower bytes.now)) }
{
    let digits = hex::encode(alloc, bytes)?;
    text.extend_from_slice(digits.as_bytes())?;
    text.extend_from_slice(b"\n")?;
    Ok(())
}

/// Writes the lines before the digits.
fn put_head(text: &mut Vec<u8>, bundle: &Bundle) -> Result<(), AllocError>
    ensures { OnOk result (text.new.items ≡ text.old.items ++ codes "bulwynef bundle 2\n" ++ bundle.now.sentences ++ codes "program " ++ bundle.now.program ++ codes "\n") }
{
    text.extend_from_slice(b"bulwynef bundle 2\n")?;
    text.extend_from_slice(bundle.sentences)?;
    text.extend_from_slice(b"program ")?;
    text.extend_from_slice(bundle.program)?;
    text.extend_from_slice(b"\n")?;
    Ok(())
}

/// Writes the lines with the digits of the directory and of the proof.
fn put_both(alloc: Global, text: &mut Vec<u8>, bundle: &Bundle) -> Result<(), AllocError>
    ensures { OnOk result (text.new.items ≡ text.old.items ++ ended (encode_lower bundle.now.directory) ++ ended (encode_lower bundle.now.proof)) }
{
    put_digits(alloc, text, bundle.directory)?;
    put_digits(alloc, text, bundle.proof)?;
    Ok(())
}

/// Returns the text of a bundle.
fn text_of(alloc: Global, bundle: &Bundle) -> Result<Vec<u8>, AllocError>
    ensures { IfOk result (λ text. text.items ≡ text_of bundle.now) }
{
    let mut text = Vec::new(alloc);
    put_head(&mut text, bundle)?;
    put_both(alloc, &mut text, bundle)?;
    Ok(text)
}

/// Returns the text of a bundle.
///
/// The call reports `BadBundle` (106) if a part is not as [`Bundle`] says, and then asks for no memory. It reports `Memory` (99) if memory
/// ran out.
pub fn write(alloc: Global, bundle: &Bundle) -> Result<Vec<u8>, WriteFault>
    ensures text { IfOk result (λ text. IsBundle bundle.now × (text.items ≡ text_of bundle.now)) }
    ensures refused { result ≡ Err fault.BadBundle → IsBundle bundle.now → ⊥ }
    ensures memory { result ≡ Err fault.Memory → IsBundle bundle.now }
{
    check(bundle)?;
    let text = text_of(alloc, bundle)?;
    Ok(text)
}
