//! Values of each coded type, read from bytes and written again.

mod tests;
