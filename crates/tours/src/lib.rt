//! What tours of the library share: three nodes with fixed keys, a witness to whom they show what they did, worlds of witnesses, and how a
//! scene is written.
//!
//! [`network`] has the nodes, [`witness`] the witness, [`worlds`] the worlds, and [`writing`] what a scene writes. All are generic in the
//! program that the nodes follow.
#![tactic(auto)]

pub mod network;
pub mod witness;
pub mod worlds;
pub mod writing;
