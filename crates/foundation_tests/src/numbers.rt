//! The numbers that words spell, by hand.

use plain_numbers::value_of;
use std::test::Fail;

#[test]
fn numbers(rt: HostRuntime) -> Result<(), Fail> {
    let words: [(&[u8], Option<u64>); 11] = [
        (b"0", Some(0)),
        (b"7", Some(7)),
        (b"4096", Some(4096)),
        (b"18446744073709551615", Some(u64::MAX)),
        (b"18446744073709551616", None),
        (b"", None),
        (b"00", None),
        (b"+7", None),
        (b"-7", None),
        (b"7 ", None),
        (b"\xff", None),
    ];
    for (word, wanted) in words {
        assert!(rt; value_of(word) == wanted);
    }
    Ok(())
}
