//! The size of a filter for a number of values.
//!
//! If a filter of z blocks has n values, a block has k of them with probability Poisson(k; n / z).
//! A given bit of each of its words is then set with probability 1 - (31/32)^k. So the false
//! positive rate is
//!
//! > Σ Poisson(k; n / z) (1 - (31/32)^k)^8, over all k.
//!
//! The sum is computed in integers, since the library has no floats.

ghost use Rattle.std.specs.Prelude.{◌≡◌, ◌↔◌, ℕ, ◌-◌, ◌*◌, ◌/◌, ◌^◌, ◌<◌, ◌≤◌, IfSome, IsTrue, MatchOption, None, Some};
ghost use Rattle.sketch_bloom.specs.Size.{IsLeastSize, IsRateAtMost, NoneKeepsRate, eighth_power, max_log2_blocks};

// The most values a block on average. With more, the rate is above one in two.
const MAX_LOAD: u64 = 128;

const MAX_LOG2_BLOCKS: u32 = 22;

/// The largest size that [`bytes_for`] returns, 128 MiB. Arrow reads no larger filter.
pub const MAX_BYTES: usize = 32 << MAX_LOG2_BLOCKS;

// The number of terms. Later ones are too small to count, with at most `MAX_LOAD` values a block.
const TERMS: u64 = 384;

/// The smallest number of bytes, a power of two from 32 bytes to 128 MiB, for a filter of `keys`
/// different values with a false positive rate of at most one in `one_in`.
///
/// Returns `None` if [`MAX_BYTES`] are too few, or if `one_in` is 0.
///
/// The rate of this size by the Poisson model is at most one in `one_in`, but for 2^-22, as
/// [`size_law`](crate::laws::size_law) says. Parquet's writers use m = -8 n / ln(1 - p^(1/8)) bits,
/// which ignores that blocks fill unevenly. At exactly that size the rate is up to 50 % above the
/// target for targets of 1 %: 0.0146 for 0.01.
pub fn bytes_for(keys: u64, one_in: u64) -> Option<usize>
    ensures least { MatchOption result (NoneKeepsRate keys one_in) (λ bytes. (log2_blocks : ℕ)
        × (bytes ≡ 32 * 2 ^ log2_blocks) × IsLeastSize keys one_in log2_blocks) }
    ensures size { IfSome result (λ bytes. (log2_blocks : ℕ) × (log2_blocks ≤ max_log2_blocks)
        × (bytes ≡ 32 * 2 ^ log2_blocks)) }
    ensures most { (MAX_BYTES ≡ 32 * 2 ^ max_log2_blocks)
        × IfSome result (λ bytes. bytes ≤ MAX_BYTES) }
    ensures some { one_in ≡ 1 → result ≡ Some 32 }
    ensures load { 1 < one_in → IfSome result (λ bytes. keys ≤ 4 * bytes) }
    ensures none { one_in ≡ 0 → result ≡ None }
{
    match one_in {
        0 => return None,
        1 => return Some(32),
        _ => {}
    }
    for log2_blocks in 0..MAX_LOG2_BLOCKS + 1 {
        if keeps_rate(keys, log2_blocks, one_in) {
            return Some(32 << log2_blocks);
        }
    }
    None
}

// Whether a filter of 2^log2_blocks blocks keeps the rate.
pub(crate) fn keeps_rate(keys: u64, log2_blocks: u32, one_in: u64) -> bool
    requires blocks { log2_blocks ≤ max_log2_blocks }
    requires one_in { 0 < one_in }
    ensures { IsTrue result ↔ IsRateAtMost keys log2_blocks one_in }
{
    if keys > MAX_LOAD << log2_blocks {
        return false;
    }
    // The sum of the terms' weights, and of the terms in parts of 2^60.
    let mut weight: u64 = 1 << 40;
    let (mut all, mut found) = (weight, 0);
    let mut clear: u64 = 1 << 50;
    for k in 1..TERMS {
        weight = next_weight(weight, keys, log2_blocks, k);
        clear = clear / 32 * 31;
        all += weight;
        found += u128::from(weight) * u128::from(covered(clear));
        // The weights stay below 2^48. Only the ratio of the sums matters.
        let is_large = weight >> 48 > 0;
        if is_large {
            weight >>= 8;
            all >>= 8;
            found >>= 8;
        }
    }
    found <= u128::from(all) * u128::from((1 << 60) / one_in)
}

// The weight of term `k`, from the one before it: times n / z / k.
fn next_weight(weight: u64, keys: u64, log2_blocks: u32, k: u64) -> u64
    requires weight { weight < 2 ^ 48 }
    requires blocks { log2_blocks ≤ max_log2_blocks }
    requires keys { keys ≤ 128 * 2 ^ log2_blocks }
    requires k { 0 < k }
    ensures value { result ≡ weight * keys / 2 ^ log2_blocks / k }
    ensures small { result ≤ 2 ^ 55 }
{
    ((u128::from(weight) * u128::from(keys)) >> log2_blocks) as u64 / k
}

// The eighth power of 1 - clear / 2^50, in parts of 2^60.
#[tactic(auto, unfolding(crate::specs::Size::eighth_power))]
fn covered(clear: u64) -> u64
    requires { clear ≤ 2 ^ 50 }
    ensures value { result ≡ eighth_power (2 ^ 50 - clear) }
    ensures small { result ≤ 2 ^ 60 }
{
    let share = u128::from((1 << 50) - clear);
    let square = (share * share) >> 50;
    let fourth = (square * square) >> 50;
    ((fourth * fourth) >> 40) as u64
}
