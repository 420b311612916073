//! The laws of the definitions in specs, for callers' proofs. Each function proves its clauses, and does nothing.

ghost use Rattle.arbitrary_base.specs.Laws.{WrapIsInRange, WrapIsCongruent, WrapIsUnique, WrappedSumsCommute, WrappedSumsAssociate, WrappedProductsCommute, WrappedProductsAssociate, WrappedProductsDistribute, CheckedTellsOverflow, CheckedQuotientTellsOverflow, ValueOfBits, BitsOfValue, RotationsUndo, ReversalUndoesItself, OnesAddUp, FrontRunsFit, EndRunsFit, ExtractionComposes, SumsKeepLowBits, DifferencesKeepLowBits, ProductsKeepLowBits, AndKeepsLowBits, OrKeepsLowBits, XorKeepsLowBits, ComplementsKeepLowBits, LeftShiftsKeepLowBits, WrapKeeps, TestTellsRange, ClampKeeps, ClampEndsAbove, ClampEndsBelow, LengthOfBits, NumberOfBits, FieldIsExtracted, ByteReversalUndoesItself, ValueOfBytes, BytesAreUnique, BorshIsCanonical, ValueOfBorsh, BorshIsUnique, TotalIsTheLastPartial, NumberOfPattern, PatternOfNumber, BitsOfPattern};

/// `wrap` returns the one number of the type that is congruent modulo `2 ^ bits`.
pub fn wrap_laws()
    ensures in_range { WrapIsInRange }
    ensures congruent { WrapIsCongruent }
    ensures unique { WrapIsUnique }
    ensures keeps { WrapKeeps }
{}

/// `in_range` tests whether a number is in range, and `clamp` moves a number that is out of range
/// to the nearest end.
pub fn range_laws()
    ensures test { TestTellsRange }
    ensures keeps { ClampKeeps }
    ensures above { ClampEndsAbove }
    ensures below { ClampEndsBelow }
{}

/// Sums and products that wrap are commutative and associative, and the products distribute over
/// the sums.
pub fn wrapped_arithmetic_laws()
    ensures sums_commute { WrappedSumsCommute }
    ensures sums_associate { WrappedSumsAssociate }
    ensures products_commute { WrappedProductsCommute }
    ensures products_associate { WrappedProductsAssociate }
    ensures products_distribute { WrappedProductsDistribute }
{}

/// A checked call has a result exactly if no divisor is zero and its overflowing call has no flag.
/// Both results are the same number.
pub fn checked_laws()
    ensures results { CheckedTellsOverflow }
    ensures quotients { CheckedQuotientTellsOverflow }
{}

/// A number in range and its bits determine each other. Rotations and reversals undo each other. A
/// count is at most the length of the list. A part of a part is a part, and an extracted number is
/// a field of the word.
pub fn bit_list_laws()
    ensures length { LengthOfBits }
    ensures number { NumberOfBits }
    ensures value_of_bits { ValueOfBits }
    ensures bits_of_value { BitsOfValue }
    ensures rotations { RotationsUndo }
    ensures reversal { ReversalUndoesItself }
    ensures popcount { OnesAddUp }
    ensures front_runs { FrontRunsFit }
    ensures end_runs { EndRunsFit }
    ensures extraction { ExtractionComposes }
    ensures field { FieldIsExtracted }
{}

/// The result of a low-bit operation at a wide type, wrapped to a narrow one, is its result at the
/// narrow type on wrapped operands. The signs may differ.
pub fn low_bit_laws()
    ensures sums { SumsKeepLowBits }
    ensures differences { DifferencesKeepLowBits }
    ensures products { ProductsKeepLowBits }
    ensures and { AndKeepsLowBits }
    ensures or { OrKeepsLowBits }
    ensures xor { XorKeepsLowBits }
    ensures complements { ComplementsKeepLowBits }
    ensures left_shifts { LeftShiftsKeepLowBits }
{}

/// Bytes that are reversed twice do not change. A number in range and its bytes determine each
/// other, also in a stream, and these bytes are canonical.
pub fn byte_laws()
    ensures reversal { ByteReversalUndoesItself }
    ensures value_of_bytes { ValueOfBytes }
    ensures bytes_are_unique { BytesAreUnique }
    ensures borsh_is_canonical { BorshIsCanonical }
    ensures value_of_borsh { ValueOfBorsh }
    ensures borsh_is_unique { BorshIsUnique }
{}

/// The total of many numbers, from the left, is the last of the partial results.
pub fn total_laws()
    ensures { TotalIsTheLastPartial }
{}

/// A number in range and its pattern, which is its residue, determine each other and have the same
/// bits.
pub fn pattern_laws()
    ensures number { NumberOfPattern }
    ensures pattern { PatternOfNumber }
    ensures bits { BitsOfPattern }
{}
