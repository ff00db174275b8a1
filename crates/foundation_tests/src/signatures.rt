//! Tests of the public calls of `sha256_lanes` and `lms_sign`.

mod calls;
mod lanes;
