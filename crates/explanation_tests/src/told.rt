//! Tests of what `explanations` tells.

mod challenges;
mod contradictions;
mod deviations;
mod told;
