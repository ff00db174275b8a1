//! Tests of the public calls of `parallel_reading`, and of the map by several workers below it.

mod calls;
mod maps;
mod samples;
mod stores;
