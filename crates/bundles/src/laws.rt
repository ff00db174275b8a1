//! Laws over the definitions. Each law is the contract of a function that does nothing.

ghost use Rattle.bundles.specs.BundleLaws.{BundlesAreRead, OlderTextsAreRefused, TextsTellBundles};

/// A text is read as the bundle whose text it is, and no other text is read.
pub fn bundles_are_read()
    ensures { BundlesAreRead }
{}

/// Bundles that have one text are one bundle.
pub fn texts_tell_bundles()
    ensures { TextsTellBundles }
{}

/// A text that begins as bundles of format 1 do is refused as older, and no other text is. It is the text of no bundle.
pub fn older_texts_are_refused()
    ensures { OlderTextsAreRefused }
{}
