//! Which files no crash leaves.

use journal::{MemoryFile, OpenFault, Reading};
use std::alloc::Global;
use std::test::*;

/// Whether the first that is read of a file of these bytes is that it is damaged.
fn is_damaged(alloc: Global, bytes: &[u8]) -> Result<bool, Fail> {
    let mut reading = Reading::new(MemoryFile::new(alloc, bytes.to_vec(alloc)?));
    match reading.next(alloc) {
        Ok(_) => Ok(false),
        Err(OpenFault::Damaged) => Ok(true),
        Err(_) => Err(Fail::from("neither")),
    }
}

#[test]
fn a_lost_bit_is_damage(rt: HostRuntime) -> Result<(), Fail> {
    let alloc = rt.alloc();
    let rows: [(&[u8], bool); 10] = [
        (&[], false),
        (&[64], false),
        (&[255, 0, 0, 0, 2, 255, 255, 255, 253, 5, 50, 0], false),
        // The gate lost seven bits, and is open.
        (&[1, 0, 0, 0, 2, 255, 255, 255, 253, 5, 50, 0], false),
        // The length lost a bit, and so did what it lacks.
        (&[255, 0, 0, 0, 0, 255, 255, 255, 253, 5, 50, 0], true),
        (&[255, 0, 0, 0, 2, 255, 255, 255, 252, 5, 50, 0], true),
        // The end of the text is missing, then the end of the head.
        (&[255, 0, 0, 0, 2, 255, 255, 255, 253, 5], true),
        (&[255, 0], true),
        // Behind a closed gate anything may stand.
        (&[0, 255], false),
        (&[0, 255, 0, 0, 0, 0, 255, 255, 255, 255], false),
    ];
    for (bytes, wanted) in rows {
        assert!(rt; is_damaged(alloc, bytes)? == wanted, "{bytes:?}");
    }
    Ok(())
}
