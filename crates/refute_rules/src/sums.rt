//! Numbers, as long as they are within 128 bits.
ghost use Rattle.std.specs.Prelude.{◌≡◌, ◌+ℤ◌, ◌-ℤ◌, neg_ℤ, pos};
ghost use Rattle.refute_defs.specs.Numbers.{within};

#[tactic(auto, using(refute_defs::proofs::NumberTests::within_test))]
pub(crate) fn sum(m: i128, n: i128) -> Option<i128>
    ensures { result ≡ within (m +ℤ n) }
{
    m.checked_add(n)
}

#[tactic(auto, using(refute_defs::proofs::NumberTests::within_test))]
pub(crate) fn difference(m: i128, n: i128) -> Option<i128>
    ensures { result ≡ within (m -ℤ n) }
{
    m.checked_sub(n)
}

#[tactic(auto, using(refute_defs::proofs::NumberTests::within_test))]
pub(crate) fn negated(k: i128) -> Option<i128>
    ensures { result ≡ within (neg_ℤ k) }
{
    k.checked_neg()
}

/// -k - 1
pub(crate) fn turned(k: i128) -> Option<i128>
    ensures { result ≡ within (neg_ℤ k -ℤ pos 1) }
{
    difference(-1, k)
}
