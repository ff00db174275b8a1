//! Many signatures at once: of all types, and such as are none.

use super::vectors::{Vector, h5_w1, h5_w2, h5_w4, h5_w8, h10_w1, h10_w2, h10_w4, h10_w8};
use lms_sign::{PublicKey, Signed, verify_all};
use std::alloc::Global;
use std::test::Fail;

/// A key, a message and what is said to be its signature.
#[derive(Drop)]
struct Texts {
    key: PublicKey,
    message: Vec<u8>,
    signature: Vec<u8>,
}

fn add_texts(alloc: Global, vector: Vector, all: &mut Vec<Texts>) -> Result<(), Fail> {
    let key_text = hex::decode(alloc, vector.key)?;
    let key = PublicKey::from_bytes(&key_text).ok().ok_or("a key")?;
    for signed in vector.signed {
        let message = hex::decode(alloc, signed.message)?;
        let signature = hex::decode(alloc, signed.signature)?;
        all.push(Texts {
            key,
            message,
            signature,
        })?;
    }
    Ok(())
}

/// Six signatures of each type of one-time signature, three by a tree of each height.
fn all_texts(alloc: Global) -> Result<Vec<Texts>, Fail> {
    let mut all = Vec::new(alloc);
    for vector in [
        h5_w1(),
        h10_w1(),
        h5_w2(),
        h10_w2(),
        h10_w4(),
        h5_w4(),
        h5_w8(),
        h10_w8(),
    ] {
        add_texts(alloc, vector, &mut all)?;
    }
    Ok(all)
}

fn answers(alloc: Global, texts: &[Texts]) -> Result<Vec<bool>, Fail> {
    let mut list = Vec::new(alloc);
    for one in texts {
        list.push(Signed {
            key: &one.key,
            message: one.message.as_slice(),
            signature: one.signature.as_slice(),
        })?;
    }
    Ok(verify_all(alloc, list.as_slice())?)
}

#[test]
fn signatures_of_all_types_verify_at_once(rt: HostRuntime) -> Result<(), Fail> {
    let texts = all_texts(rt.alloc())?;
    let told = answers(rt.alloc(), texts.as_slice())?;
    assert!(rt; told.as_slice() == [true; 24].as_slice());
    Ok(())
}

/// Makes six of the texts such as are none.
fn spoil(texts: &mut [Texts]) -> Result<(), Fail> {
    for (place, one) in texts.iter_mut().enumerate() {
        match place {
            1 => super::flip(one.message.as_mut_slice(), 39),
            4 => super::flip(one.signature.as_mut_slice(), 40),
            7 => {
                let _ = one.signature.pop();
            }
            10 => one.message.push(0)?,
            14 => super::flip(one.signature.as_mut_slice(), 3),
            22 => one.key.root[31] ^= 1,
            _ => {}
        }
    }
    Ok(())
}

#[test]
fn texts_that_are_no_signatures_are_told_among_others(rt: HostRuntime) -> Result<(), Fail> {
    let mut texts = all_texts(rt.alloc())?;
    spoil(texts.as_mut_slice())?;
    let told = answers(rt.alloc(), texts.as_slice())?;
    let mut wanted = [true; 24];
    for place in [1usize, 4, 7, 10, 14, 22] {
        wanted[place] = false;
    }
    assert!(rt; told.as_slice() == wanted.as_slice());
    Ok(())
}

#[test]
fn no_signatures_have_no_answers(rt: HostRuntime) -> Result<(), Fail> {
    assert!(rt; answers(rt.alloc(), &[])?.as_slice() == [].as_slice());
    Ok(())
}
