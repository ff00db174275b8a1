//! Laws of what stores say of nodes.

pub use accuracy::laws::honest_nodes_are_not_exposed;
