//! The map of `parallel_map`, with one worker and with several.

ghost use Rattle.std.specs.Prelude.{◌<◌};

use parallel_map::map_claimed;
use std::test::Fail;

#[test]
fn the_same_values_with_any_number_of_workers(rt: HostRuntime) -> Result<(), Fail> {
    let squares = [0, 1, 4, 9, 16, 25, 36];
    for workers in [1, 2, 8, 15] {
        let values = map_claimed(
            &rt,
            rt.alloc(),
            7,
            workers,
            &|n: usize| -> u64
                requires { n < 7 }
            { n as u64 * n as u64 },
        )?;
        assert_eq!(rt; values.as_slice(), squares.as_slice());
    }
    Ok(())
}

#[test]
fn no_number_gives_no_value(rt: HostRuntime) -> Result<(), Fail> {
    let values = map_claimed(
        &rt,
        rt.alloc(),
        0,
        2,
        &|n: usize| -> u64
            requires { n < 0 }
        { n as u64 },
    )?;
    assert!(rt; values.is_empty());
    Ok(())
}
