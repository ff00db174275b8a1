//! Verbs of keys that sign, and of texts of signatures.

use crate::keyring::Keyring;
use authenticators::split_signature;
use lms_sign::{LmsType, OtsType, SecretKey};
use probe_words::{Answer, Mistake, Words, shown};

fn lms_type(words: &Words, place: usize) -> Result<LmsType, Mistake> {
    match words.word(place) {
        "H5" => Ok(LmsType::H5),
        "H10" => Ok(LmsType::H10),
        "H15" => Ok(LmsType::H15),
        "H20" => Ok(LmsType::H20),
        "H25" => Ok(LmsType::H25),
        _ => Err(Mistake::Choice(place)),
    }
}

fn ots_type(words: &Words, place: usize) -> Result<OtsType, Mistake> {
    match words.word(place) {
        "W1" => Ok(OtsType::W1),
        "W2" => Ok(OtsType::W2),
        "W4" => Ok(OtsType::W4),
        "W8" => Ok(OtsType::W8),
        _ => Err(Mistake::Choice(place)),
    }
}

/// `key H5 W4 ID SEED as KEY`: makes a secret key with this height, this width, this identifier and this seed.
pub fn make(on: &mut Keyring, words: &Words) -> Result<Answer, Mistake> {
    words.take(4, 1)?;
    let lms = lms_type(words, 1)?;
    let ots = ots_type(words, 2)?;
    let id = words.array(&on.bytes, 3)?;
    let seed = words.array(&on.bytes, 4)?;
    on.growths.begin();
    let made = SecretKey::make(on.alloc, lms, ots, id, seed);
    on.growths.end();
    match made {
        Ok(key) => {
            on.keys.put(words.name(0)?, key)?;
            on.done()
        }
        Err(fault) => on.refused(fault.number(), fault.name(), &fault),
    }
}

/// `public KEY as NAME`: gives the bytes of its public key a name.
pub fn public(on: &mut Keyring, words: &Words) -> Result<Answer, Mistake> {
    words.take(1, 1)?;
    let text = on.keys.get(1, words.word(1))?.public_key().to_bytes();
    let bytes = Vec::from_slice(on.alloc, &text)?;
    on.bytes.put(words.name(0)?, bytes)?;
    Ok(Answer::told(shown(on.alloc, &text)?))
}

/// `leaves KEY`: answers how many leaves have not signed.
pub fn leaves(on: &mut Keyring, words: &Words) -> Result<Answer, Mistake> {
    words.take(1, 0)?;
    let left = on.keys.get(1, words.word(1))?.remaining();
    Ok(Answer::told(format!(in on.alloc; "{left}")?))
}

/// `sign KEY BYTES C as NAME`: signs the bytes with the randomizer `C`, and gives the signature's bytes a name.
pub fn sign(on: &mut Keyring, words: &Words) -> Result<Answer, Mistake> {
    words.take(3, 1)?;
    let text = words.bytes(&on.bytes, 2)?;
    let c = words.array(&on.bytes, 3)?;
    let key = on.keys.get_mut(1, words.word(1))?;
    on.growths.begin();
    let signed = key.sign(on.alloc, &text, c);
    on.growths.end();
    match signed {
        Ok(sig) => {
            let text = shown(on.alloc, &sig)?;
            on.bytes.put(words.name(0)?, sig)?;
            Ok(Answer::told(text))
        }
        Err(fault) => on.refused(fault.number(), fault.name(), &fault),
    }
}

/// `split BYTES`: answers the number of the key that a signature text names, and the signature.
pub fn split(on: &mut Keyring, words: &Words) -> Result<Answer, Mistake> {
    words.take(1, 0)?;
    let text = words.bytes(&on.bytes, 1)?;
    let Some((number, signature)) = split_signature(&text) else {
        return Ok(Answer::of(on.alloc, "none")?);
    };
    let signature = shown(on.alloc, signature)?;
    Ok(Answer::told(format!(in on.alloc; "key {number}, {signature}")?))
}
