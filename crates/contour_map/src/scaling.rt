// The values of a contour map as samples of a picture.
ghost use Rattle.std.specs.Prelude.{◌≡◌, ◌<◌, ◌≤◌, All, max};
ghost use Rattle.contour_map.specs.Scaling.{highest, scaled, greatest_sample};

// The most that a sample can be.
const MOST_SAMPLE: u64 = 65_535;

// The highest of the values, or 0 where there are none.
pub(crate) fn highest(values: &[u64]) -> u64
    ensures value { result ≡ highest values.now }
    ensures most { All (λ v. v ≤ result) values.now }
{
    let mut high = 0;
    for value in values {
        high = greater(high, *value);
    }
    high
}

// The greater of two numbers.
fn greater(first: u64, second: u64) -> u64
    ensures { result ≡ max first second }
{
    first.max(second)
}

// The greatest value of a picture, where this is the highest value.
pub(crate) fn greatest_sample(high: u64) -> u32
    ensures value { result ≡ greatest_sample high }
    ensures two_bytes { result ≤ 65535 }
{
    if high <= MOST_SAMPLE {
        1.max(high as u32)
    } else {
        MOST_SAMPLE as u32
    }
}

// The sample of a value, where this is the highest value.
pub(crate) fn sample(high: u64, value: u64) -> u32
    requires { value ≤ high }
    ensures value { result ≡ scaled high value }
    ensures up_to_greatest { result ≤ greatest_sample high }
{
    if high <= MOST_SAMPLE {
        value as u32
    } else {
        scaled(high, value)
    }
}

// A value scaled by the highest to at most 65,535, and rounded up.
fn scaled(high: u64, value: u64) -> u32
    requires many { 65535 < high }
    requires low { value ≤ high }
    ensures value { result ≡ scaled high value }
    ensures most { result ≤ 65535 }
{
    let product = u128::from(value) * u128::from(MOST_SAMPLE);
    product.div_ceil(u128::from(high)) as u32
}
