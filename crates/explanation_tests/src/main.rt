//! Tests of what is written for readers: explanations in words and on pages, answers, and bundles.
#![tactic(auto)]

#[cfg(test)]
mod answering;
#[cfg(test)]
mod bundled;
#[cfg(test)]
mod pages;
#[cfg(test)]
mod told;

fn main() {}
