//! Each call on a small bundle. Its refusals are those of `second_opinion/check.py`.

use bundles::{Bundle, BundleFault, WriteFault, read, write};
use std::alloc::Global;
use std::test::*;

/// The line with this number, with its end, of a bundle of a directory of the bytes `50 52` and of a proof of the bytes `03 a0`.
fn line(number: usize) -> &'static str {
    match number {
        1 => "bulwynef bundle 2\n",
        2 => "# Node 2 is exposed.\n",
        3 => "#\n",
        4 => "program tally\n",
        5 => "5052\n",
        6 => "03a0\n",
        _ => "",
    }
}

/// The bundle that the lines are of.
fn bundle() -> Bundle<'static> {
    Bundle {
        sentences: b"# Node 2 is exposed.\n#\n",
        program: b"tally",
        directory: &[0x50, 0x52],
        proof: &[0x03, 0xa0],
    }
}

/// A bundle without sentences, and without a byte of a directory.
fn bare_text() -> &'static str {
    "bulwynef bundle 2\nprogram tally\n\n03a0\n"
}

/// The lines, with this text in place of one of them; behind them, where the number is 7.
fn text_with(alloc: Global, number: usize, instead: &str) -> Result<String, Fail> {
    let mut text = String::new(alloc);
    for at in 1..8 {
        text.push_str(if at == number { instead } else { line(at) })?;
    }
    Ok(text)
}

/// The number and the line of what is told of a text; zeros where it is read.
fn fault_of(alloc: Global, text: &str) -> (u8, usize) {
    match read(alloc, text.as_bytes()) {
        Ok(_) => (0, 0),
        Err(fault) => (fault.number(), fault.line().unwrap_or(0)),
    }
}

/// What is told of the lines, with this text in place of one of them.
fn fault_with(alloc: Global, number: usize, instead: &str) -> Result<(u8, usize), Fail> {
    let text = text_with(alloc, number, instead)?;
    Ok(fault_of(alloc, text.as_str()))
}

/// Whether the bundle's text is this one.
fn is_written(alloc: Global, bundle: &Bundle, want: &str) -> bool {
    match write(alloc, bundle) {
        Ok(text) => text.as_slice() == want.as_bytes(),
        Err(_) => false,
    }
}

/// Whether the text is read as the bundle that the lines are of.
fn is_read(alloc: Global, text: &str) -> bool {
    let Ok(open) = read(alloc, text.as_bytes()) else {
        return false;
    };
    let want = bundle();
    let heads = open.sentences == want.sentences && open.program == want.program;
    heads && open.directory.as_slice() == want.directory && open.proof.as_slice() == want.proof
}

/// Whether the bundle is refused as one that is not spelled.
fn is_refused(alloc: Global, bundle: &Bundle) -> bool {
    match write(alloc, bundle) {
        Ok(_) => false,
        Err(fault) => fault.number() == 106,
    }
}

#[test]
fn a_bundle_is_written_and_read(rt: HostRuntime) -> Result<(), Fail> {
    let text = text_with(rt.alloc(), 0, "")?;
    assert!(rt; is_written(rt.alloc(), &bundle(), text.as_str()));
    assert!(rt; is_read(rt.alloc(), text.as_str()));
    Ok(())
}

#[test]
fn a_bundle_may_have_no_sentence_and_no_bytes(rt: HostRuntime) {
    assert!(rt; fault_of(rt.alloc(), bare_text()) == (0, 0));
}

#[test]
fn the_first_line_is_refused(rt: HostRuntime) -> Result<(), Fail> {
    assert!(rt; fault_of(rt.alloc(), "") == (106, 1));
    assert!(rt; fault_of(rt.alloc(), "bulwynef bundle 2") == (106, 1));
    assert!(rt; fault_with(rt.alloc(), 1, "bulwynef bundle 3\n")? == (106, 1));
    assert!(rt; fault_with(rt.alloc(), 1, "bulwynef bundle 2\r\n")? == (106, 1));
    Ok(())
}

#[test]
fn format_1_is_refused_by_its_first_line(rt: HostRuntime) -> Result<(), Fail> {
    assert!(rt; fault_with(rt.alloc(), 1, "bulwynef bundle 1\n")? == (131, 0));
    assert!(rt; fault_of(rt.alloc(), "bulwynef bundle 1\n") == (131, 0));
    assert!(rt; fault_of(rt.alloc(), "bulwynef bundle 1") == (106, 1));
    assert!(rt; fault_with(rt.alloc(), 1, "bulwynef bundle 1\r\n")? == (106, 1));
    Ok(())
}

#[test]
fn what_is_no_sentence_is_no_program(rt: HostRuntime) -> Result<(), Fail> {
    assert!(rt; fault_with(rt.alloc(), 3, "#\ttab\n")? == (106, 3));
    assert!(rt; fault_with(rt.alloc(), 4, "program Tally\n")? == (106, 4));
    assert!(rt;
        fault_with(rt.alloc(), 4, "program aaaaaaaaaaaaaaaaaaaaaaaaaaaaaaaaa\n")? == (106, 4)
    );
    assert!(rt; fault_with(rt.alloc(), 4, "program  tally\n")? == (106, 4));
    assert!(rt; fault_with(rt.alloc(), 4, "program\n")? == (106, 4));
    Ok(())
}

#[test]
fn digits_are_even_and_in_lower_case(rt: HostRuntime) -> Result<(), Fail> {
    assert!(rt; fault_with(rt.alloc(), 6, "03A0\n")? == (106, 6));
    assert!(rt; fault_with(rt.alloc(), 5, "50520\n")? == (106, 5));
    assert!(rt; fault_with(rt.alloc(), 5, "5052\r\n")? == (106, 5));
    Ok(())
}

#[test]
fn the_last_line_ends_the_text(rt: HostRuntime) -> Result<(), Fail> {
    assert!(rt; fault_with(rt.alloc(), 6, "03a0")? == (106, 6));
    assert!(rt; fault_with(rt.alloc(), 6, "")? == (106, 6));
    assert!(rt; fault_with(rt.alloc(), 7, "# one more\n")? == (106, 7));
    Ok(())
}

#[test]
fn what_is_not_spelled_is_not_written(rt: HostRuntime) {
    let no_name = Bundle {
        program: b"Tally",
        ..bundle()
    };
    assert!(rt; is_refused(rt.alloc(), &no_name));
    let no_sentence = Bundle {
        sentences: b"# no end",
        ..bundle()
    };
    assert!(rt; is_refused(rt.alloc(), &no_sentence));
}

#[test]
fn refusals_have_numbers_and_names(rt: HostRuntime) {
    let numbers = [
        BundleFault::BadBundle(1).number(),
        BundleFault::OlderBundle.number(),
        BundleFault::Memory.number(),
    ];
    assert!(rt; numbers == [106, 131, 99]);
    assert!(rt; BundleFault::OlderBundle.name() == "OlderBundle");
    assert!(rt; WriteFault::BadBundle.name() == "BadBundle");
}
