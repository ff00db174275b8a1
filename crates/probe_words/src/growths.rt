//! Marks for `checks/calls/refuse.c`, which say which growth of memory it must refuse. The marks are growths of sizes that nothing else
//! asks for.

use std::alloc::Global;

/// A growth of this many bytes and `n` more arms the library: it refuses the growth number `n` from then on. It refuses the mark too.
const ARMS: usize = 1 << 40;

/// The size of the growth that disarms the library. It refuses this mark too.
const DISARMS: usize = 1 << 41;

/// Which growth of each call is refused, if one is.
#[derive(Drop)]
pub struct Growths {
    alloc: Global,
    refused: Option<u32>,
}

/// Asks for so many bytes, and gives them back.
fn ask(alloc: Global, size: usize) {
    let block: Result<Vec<u8>, _> = Vec::with_capacity(alloc, size);
    drop(block);
}

impl Growths {
    /// Makes the value with which no growth is refused.
    pub fn new(alloc: Global) -> Growths {
        Growths {
            alloc,
            refused: None,
        }
    }

    /// Has the growth with this number refused in each call from now on. Growths are counted from 1.
    pub fn refuse(&mut self, growth: u32) {
        self.refused = Some(growth);
    }

    /// Marks that a call begins. It is called just before the call.
    pub fn begin(&self) {
        if let Some(growth) = self.refused {
            ask(self.alloc, ARMS + growth as usize);
        }
    }

    /// Marks that the call has ended. It is called just after the call.
    pub fn end(&self) {
        if self.refused.is_some() {
            ask(self.alloc, DISARMS);
        }
    }
}
