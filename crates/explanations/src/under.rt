//! What explanations are given under.

use authenticators::Directory;

/// What an explanation is given under: the program that the nodes must follow, the voice that says its payloads, and the directory.
#[derive(Drop)]
pub(crate) struct Under<'a, P, V> {
    pub(crate) program: &'a P,
    pub(crate) voice: &'a V,
    pub(crate) directory: &'a Directory,
}
