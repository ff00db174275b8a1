//! Laws over the definitions. Each law is the contract of a function that does nothing.

ghost use Rattle.bundling.specs.Judging.{MadeBundlesAreConfirmed};

use bundles::laws::bundles_are_read;
use proofs::laws::proofs_convict_one_node;

/// A bundle that is made is read as one that has these texts. It is judged to expose the node that its sentences name, and
/// nothing disagrees.
pub fn made_bundles_are_confirmed<S>()
    ensures { MadeBundlesAreConfirmed S }
{
    bundles_are_read();
    proofs_convict_one_node::<S>();
}
