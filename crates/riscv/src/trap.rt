//! Where a run goes on, and why it may not.

/// Why a run can't go on, in the words of the standard's exceptions.
#[derive(Clone, Copy, Debug, PartialEq, Eq)]
pub enum Trap {
    /// A jump or a branch that is taken leads to a place that is no multiple of 4. It is the jump's trap, and its register is not written (2.5).
    /// A run that is begun at such a place has it too.
    InstructionAddressMisaligned,
    /// The code has no instruction at this place.
    InstructionAccessFault,
    /// The word is no instruction of RV32IM.
    IllegalInstruction,
    /// `ebreak`.
    Breakpoint,
    /// A load reads behind the memory's end. A load need not be aligned.
    LoadAccessFault,
    /// A store writes behind the memory's end. A store need not be aligned, and writes nothing if its last byte has no room.
    StoreAccessFault,
}

/// Where a run goes on.
#[derive(Clone, Copy, Debug, PartialEq, Eq)]
pub enum Next {
    /// At this place of the code, in bytes.
    At(u32),
    /// Nowhere: `ecall` ended the run.
    Ended,
    /// Nowhere: the instruction at this place trapped. Registers and memory are as they were before it.
    Trapped { trap: Trap, pc: u32 },
}
