//! The laws of fields in a word, for callers' proofs. The function proves its clauses, and does nothing.

ghost use Rattle.bit_fields.specs.BitField.{PutSetsItsBits, PutKeepsOtherBits, FieldAfterPut, PutsSetTheirBits, PutsKeepOtherBits, FieldAfterPuts, PutsInAnyOrder, DisjointPutsCommute};

/// A put into a word of 128 bits sets the bits of its field, and changes no others. Puts to
/// disjoint fields do so in any order: each field reads as what was put there.
#[tactic(auto, using(crate::proofs::Placing::field_rules))]
pub fn field_laws()
    ensures put_sets { PutSetsItsBits }
    ensures put_keeps { PutKeepsOtherBits }
    ensures field_after_put { FieldAfterPut }
    ensures puts_set { PutsSetTheirBits }
    ensures puts_keep { PutsKeepOtherBits }
    ensures field_after_puts { FieldAfterPuts }
    ensures any_order { PutsInAnyOrder }
    ensures puts_commute { DisjointPutsCommute }
{}
