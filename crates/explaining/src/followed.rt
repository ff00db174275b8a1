//! What the nodes must follow, as an explanation says it.

/// The program that the nodes must follow, its name and its voice.
#[derive(Drop)]
pub struct Followed<'a, P, V> {
    /// The program.
    pub program: &'a P,
    /// Its name, as it is written.
    pub name: &'a str,
    /// The voice that says its payloads.
    pub voice: &'a V,
}
