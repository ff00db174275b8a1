//! Laws over the definitions. Each is a function that does nothing: its contract is the law.

ghost use Rattle.riscv.specs.ArithmeticLaws.{DivisionByTheTable, ProductsAreWhole, QuotientsAndRemainders, ShiftsRoundDown, SignedIsTwosComplement, SignedOrder};
ghost use Rattle.riscv.specs.DecodingLaws.{WordsAreRead, WordsReadBack};
ghost use Rattle.riscv.specs.RunningLaws.{FuelIsUsed, PlacesAreAligned, RegisterZeroStays, RunsGoOn, SizesStay, StopsChangeNothing};

/// A word below 2^31 stands for itself, and one from there on for itself less 2^32.
pub fn signed_is_twos_complement()
    ensures { SignedIsTwosComplement }
{}

/// `blt`, `bge` and `slt` compare the integers that words stand for.
pub fn signed_order()
    ensures { SignedOrder }
{}

/// `sra` divides the integer by the power of two, and rounds down.
pub fn shifts_round_down()
    ensures { ShiftsRoundDown }
{}

/// The upper word that `mulh`, `mulhsu` or `mulhu` gives and the lower word of `mul` are the product of the integers.
pub fn products_are_whole()
    ensures { ProductsAreWhole }
{}

/// The quotient times the divisor, and the remainder, are the dividend, for `div` and `rem` as for `divu` and `remu`. The remainder is nearer
/// to 0 than the divisor.
pub fn quotients_and_remainders()
    ensures { QuotientsAndRemainders }
{}

/// What `div`, `divu`, `rem` and `remu` give by 0, and what `div` and `rem` give of -2^31 by -1: table 7.1 of the standard.
pub fn division_by_the_table()
    ensures { DivisionByTheTable }
{}

/// A run keeps register 0 at 0.
pub fn register_zero_stays()
    ensures { RegisterZeroStays }
{}

/// A run keeps the number of registers and the size of the memory.
pub fn sizes_stay()
    ensures { SizesStay }
{}

/// An instruction that traps or ends the run changes neither registers nor memory. A trap names its own place.
pub fn stops_change_nothing()
    ensures { StopsChangeNothing }
{}

/// Each place that an instruction leads to is a multiple of 4.
pub fn places_are_aligned()
    ensures { PlacesAreAligned }
{}

/// A run that is cut in two at any fuel goes on where it was. So more fuel changes nothing of a run that has stopped.
pub fn runs_go_on()
    ensures { RunsGoOn }
{}

/// A run that could go on has used all its fuel.
pub fn fuel_is_used()
    ensures { FuelIsUsed }
{}

/// Words that LLVM's assembler makes of each instruction are read as that instruction: with every register, and with immediates at their
/// bounds. Words of other extensions, of 64 bits and of no instruction are illegal.
pub fn words_are_read()
    ensures { WordsAreRead }
{}

/// Each instruction whose registers and immediates fit its format has a word, and that word is read as this instruction. So no two such
/// instructions share a word.
pub fn words_read_back()
    ensures { WordsReadBack }
{}
