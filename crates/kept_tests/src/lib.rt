//! Tests of what a store keeps: entries that items share, and items in their order.
#![tactic(auto)]

#[cfg(test)]
mod entries;
#[cfg(test)]
mod items;
