// Floats, recorded by their bits.

const SIGN_BIT: u64 = 0x8000_0000_0000_0000;

// The bits of infinity. Those of every finite float are fewer, but for the sign.
const INFINITY_BITS: u64 = 0x7ff0_0000_0000_0000;

// The bits that stand for every NaN.
const NAN_BITS: u64 = 0x7ff8_0000_0000_0000;

/// The float of these bits, or infinity for any that is not finite: check 11 turns it down. (Tested by the bits: `f64::from_bits` takes those of no NaN, so
/// that `is_finite` of the float comes too late.)
#[tactic(auto, using(std::proofs::lemmas::Float::not_nan_f64_bits))]
pub fn finite_of(bits: u64) -> f64 {
    if bits % SIGN_BIT < INFINITY_BITS {
        f64::from_bits(bits)
    } else {
        f64::INFINITY
    }
}

/// The bits of a float as it is recorded.
pub fn bits_of(x: f64) -> u64 {
    if x.is_nan() { NAN_BITS } else { x.to_bits() }
}
