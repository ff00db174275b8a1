//! How each special character stands in a page, by the references of HTML, and what is seen as digits.

use page_text::escaped;
use std::test::Fail;

#[test]
fn special_characters(rt: HostRuntime) -> Result<(), Fail> {
    for (text, wanted) in [
        ("&", "&#38;"),
        ("<", "&#60;"),
        (">", "&#62;"),
        ("\"", "&#34;"),
        ("'", "&#39;"),
        ("`", "&#96;"),
        ("\\", "\\x5c"),
        ("\0", "\\x00"),
        ("\n", "\\x0a"),
        ("\x1f", "\\x1f"),
        ("\x7f", "\\x7f"),
        (" ~", " ~"),
        ("\u{e9}", "\\xc3\\xa9"),
        ("\u{202e}", "\\xe2\\x80\\xae"),
        ("</title><script>", "&#60;/title&#62;&#60;script&#62;"),
        ("a=\"&amp;\"", "a=&#34;&#38;amp;&#34;"),
    ] {
        let page = escaped(rt.alloc(), text.as_bytes())?;
        assert!(rt; page.as_slice() == wanted.as_bytes());
    }
    Ok(())
}
