//! Stores that are kept in journals: what comes back, what is refused, and what a failure leaves.

mod failures;
mod fixtures;
mod groups;
mod longest;
mod refusals;
mod restarts;
