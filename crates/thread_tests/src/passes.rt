//! Tests of the public calls of `exchanging`.

mod exchanges;
