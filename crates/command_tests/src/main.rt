//! Tests of the public calls of `scenarios`, `simulation`, `scenario_run` and `commands`.
#![tactic(auto)]

#[cfg(test)]
mod check;
#[cfg(test)]
mod devices;
mod input;
#[cfg(test)]
mod merge;
#[cfg(test)]
mod playing;
#[cfg(test)]
mod prove;
#[cfg(test)]
mod reading;
#[cfg(test)]
mod running;
#[cfg(test)]
mod scenario;
#[cfg(test)]
mod status;
#[cfg(test)]
mod testing;

fn main() {}
