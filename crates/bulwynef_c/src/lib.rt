//! The calls of the library for programs in C and other languages, as a static library. The header is `c/bulwynef.h`.
//!
//! Stores, nodes and texts lie behind handles ([`handle::Handle`], [`object::Object`]). An export takes out what lies behind a handle, calls a
//! function of `byte_calls` or of a library, and puts it back. Its contract says what lies there before and after, in the words of that
//! function, and which refusal comes. No export has a `requires`. `specs/Handles.antt` defines what contracts say of handles.
//!
//! Each export but `bulwynef_text_len` and `bulwynef_close` returns 0, or the number of a refusal. A refused call changes nothing, except for
//! `bulwynef_node_answer` with 99. The number is 110 if a handle is closed that must be open, and 114 if one is open that must be closed. It is
//! 111 if something else lies behind a handle, and 99 if memory runs out.
#![tactic(auto)]

mod asking;
mod checking;
mod explaining;
pub mod handle;
mod items;
mod journals;
mod keys;
mod loose;
mod nodes;
pub mod object;
mod of_program;
pub mod programs;
mod speaking;
mod stores;
mod taking;
mod texts;
mod transfers;
