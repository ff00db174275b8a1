//! Scenarios: what nodes and witnesses do, in lines of words.
//!
//! - [`Scenario::read`] reads a scenario's text whole, or refuses it, before anything runs. A scenario says how many witnesses there are,
//!   which nodes there are and of what [`Kind`] each is, and the [`Act`]s in their order.
//!
//! `specs/Scenarios.antt` says which text is which scenario. `specs/Spelling.antt` says how a scenario is written. [`laws`] has what
//! follows.
#![tactic(auto)]

pub use authenticators::NodeId;
pub use fault::ScenarioFault;
pub use instruction::{Act, Kind, Member};
pub use scenario::Scenario;

mod draft;
mod fault;
mod instruction;
mod instructions;
pub mod laws;
mod limits;
mod lines;
mod numbers;
mod scenario;
