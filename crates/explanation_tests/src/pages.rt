//! Tests of pages: how text stands in them, and the page of a small explanation.

mod cutting;
mod escaping;
mod folding;
mod pages;
