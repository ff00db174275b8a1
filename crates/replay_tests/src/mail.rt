//! Steps of the mail relay's nodes and the bytes of their states, with values from outside.

mod asking_tests;
mod relay_tests;
mod told;
