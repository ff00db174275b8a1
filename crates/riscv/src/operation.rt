//! What instructions compute and compare, by the standard's names.

/// What an instruction computes of two words. The standard has these in 2.4 and, from `Mul` on, in chapter 7.
#[derive(Clone, Copy, Debug, PartialEq, Eq)]
pub enum Operation {
    Add,
    Sub,
    Sll,
    Slt,
    Sltu,
    Xor,
    Srl,
    Sra,
    Or,
    And,
    Mul,
    Mulh,
    Mulhsu,
    Mulhu,
    Div,
    Divu,
    Rem,
    Remu,
}

/// When a branch is taken (2.5).
#[derive(Clone, Copy, Debug, PartialEq, Eq)]
pub enum Comparison {
    Beq,
    Bne,
    Blt,
    Bge,
    Bltu,
    Bgeu,
}
