//! The laws of the operators of `u16` and `i16`. tools/twins.py compares this file with those of the other widths.

ghost use Rattle.std.specs.Prelude.{◌+◌, ◌*◌, ◌+ℤ◌, ◌-ℤ◌, ◌*ℤ◌, pos, neg_ℤ, refl};
ghost use Rattle.std.specs.Int.{w16};
ghost use Rattle.std.proofs.Common.{ap, lit≤};
ghost use Rattle.std.proofs.lemmas.Nat.{pow_below};
ghost use Rattle.arbitrary_base.proofs.operations.Assigned.{all_assigned};
ghost use Rattle.arbitrary_base.proofs.storages.PrimitiveOperators.{lt-of_in_range, nat_cmp-pos, nat_eq-pos, nonzero-pos, signed-divides, signed-fits, sub-in_range, sub-pos};
ghost use Rattle.arbitrary_base.proofs.storages.PrimitiveBits.{bitand-signed, bitand-unsigned, bitor-signed, bitor-unsigned, bitxor-signed, bitxor-unsigned, not-signed, not-unsigned};

use crate::integer::{SignedInteger, UnsignedInteger};
use crate::primitives::Primitive;

impl Primitive for u16 {
    ghost clone_law = { λ a b h. h };

    ghost infallible_law = { λ _. tt };

    ghost eq_law = { nat_eq-pos };

    ghost cmp_law = { nat_cmp-pos };

    ghost output_law = { λ a. refl };

    ghost debug_output_law = { λ a. refl };

    ghost can_add_law = { λ a b h. lt-of_in_range 16 (a + b) h };

    ghost add_law = { λ a b r h f. ap pos h };

    ghost can_sub_law = { sub-in_range 16 };

    ghost sub_law = { sub-pos 16 };

    ghost can_mul_law = { λ a b h. lt-of_in_range 16 (a * b) h };

    ghost mul_law = { λ a b r h f. ap pos h };

    ghost can_div_law = { λ a b f n g. nonzero-pos b n };

    ghost div_law = { λ a b r h. ap pos h };

    ghost can_bitand_law = { λ a b. tt };

    ghost bitand_law = { bitand-unsigned w16 };

    ghost can_bitor_law = { λ a b. tt };

    ghost bitor_law = { bitor-unsigned w16 };

    ghost can_bitxor_law = { λ a b. tt };

    ghost bitxor_law = { bitxor-unsigned w16 };

    ghost can_not_law = { λ a. tt };

    ghost not_law = { not-unsigned w16 };

    ghost assign_law = { all_assigned };
}

impl UnsignedInteger for u16 {
    ghost unsigned_law = { refl };

    ghost one_law = { λ _. pow_below 0 16 (lit≤ tt) };
}

impl Primitive for i16 {
    ghost clone_law = { λ a b h. h };

    ghost infallible_law = { λ _. tt };

    ghost eq_law = { λ a b. refl };

    ghost cmp_law = { λ a b. refl };

    ghost output_law = { λ a. refl };

    ghost debug_output_law = { λ a. refl };

    ghost can_add_law = { λ a b h. signed-fits w16 (a +ℤ b) h };

    ghost add_law = { λ a b r h f. h };

    ghost can_sub_law = { λ a b h. signed-fits w16 (a -ℤ b) h };

    ghost sub_law = { λ a b r h f. h };

    ghost can_mul_law = { λ a b h. signed-fits w16 (a *ℤ b) h };

    ghost mul_law = { λ a b r h f. h };

    ghost can_div_law = { signed-divides w16 };

    ghost div_law = { λ a b r h. h };

    ghost can_bitand_law = { λ a b. tt };

    ghost bitand_law = { bitand-signed w16 };

    ghost can_bitor_law = { λ a b. tt };

    ghost bitor_law = { bitor-signed w16 };

    ghost can_bitxor_law = { λ a b. tt };

    ghost bitxor_law = { bitxor-signed w16 };

    ghost can_not_law = { λ a. tt };

    ghost not_law = { not-signed w16 };

    ghost assign_law = { all_assigned };
}

impl SignedInteger for i16 {
    ghost signed_law = { refl };

    ghost can_neg_law = { λ a h. signed-fits w16 (neg_ℤ a) h };

    ghost neg_law = { λ a r h. h };
}
