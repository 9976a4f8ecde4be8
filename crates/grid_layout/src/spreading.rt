ghost use Rattle.std.specs.Prelude.{◌≡◌, ℕ, ◌+◌, ◌-◌, ◌*◌, ◌^◌, ◌<◌, ◌≤◌, length, sum, map, slice_index, All, ◌==◌, if◌then◌else◌};
ghost use Rattle.std.specs.List.{range_with_len};
ghost use Rattle.grid_layout.specs.Spread.{left_over, part_before, share_of, width_of, widths_of};

/// Spreads `room` pixels over columns, or rows, by their weights, and writes their widths.
///
/// The three lists have one length, 0 to 16. A least width is at most 4,128 pixels, a weight at
/// most 1,000 and the room at most 4,128 pixels. Each column gets its least width. What the least
/// widths leave of the room is shared: the first columns together get the part of it that their
/// weights are of all weights, rounded down. Where no column has a weight, the last one gets all
/// of it. With no column nothing is written. docs/MACHINE.md has the rule.
pub fn spread(least: &[u32], weights: &[u32], room: u32, out: &mut [u32])
    requires weight_each { length weights.now ≡ length least.now }
    requires place_each { length out.old ≡ length least.now }
    requires few { length least.now ≤ 16 }
    requires least_small { All (λ n. n ≤ 4128) least.now }
    requires weights_small { All (λ n. n ≤ 1000) weights.now }
    requires room_small { room ≤ 4128 }
    ensures { out.new ≡ widths_of least.now weights.now room }
{
    let extra = room.saturating_sub(sum_of(least));
    let all = sum_of(weights);
    if all == 0 {
        give_last(least, extra, out);
    } else {
        give_by_weight(least, weights, extra, all, out);
    }
}

/// Writes the least widths, and adds all that is left to the last.
fn give_last(least: &[u32], extra: u32, out: &mut [u32])
    requires place_each { length out.old ≡ length least.now }
    requires least_small { All (λ n. n ≤ 4128) least.now }
    requires extra_small { extra ≤ 4128 }
    ensures { out.new ≡ map (λ i. slice_index least.now i + (if i + 1 == length least.now then extra else 0)) (range_with_len 0 (length least.now)) }
{
    let last = least.len();
    for i in 0..least.len() {
        out[i] = if i + 1 == last {
            least[i] + extra
        } else {
            least[i]
        };
    }
}

/// Writes the least widths, each with its share of what is left.
fn give_by_weight(least: &[u32], weights: &[u32], extra: u32, all: u32, out: &mut [u32])
    requires weight_each { length weights.now ≡ length least.now }
    requires place_each { length out.old ≡ length least.now }
    requires few { length least.now ≤ 16 }
    requires least_small { All (λ n. n ≤ 4128) least.now }
    requires weights_small { All (λ n. n ≤ 1000) weights.now }
    requires extra_small { extra ≤ 4128 }
    requires weighed { all ≡ sum weights.now }
    requires some { 0 < all }
    ensures { out.new ≡ map (λ i. slice_index least.now i + (part_before weights.now extra (i + 1) - part_before weights.now extra i)) (range_with_len 0 (length least.now)) }
{
    let mut passed = 0u32;
    for i in 0..least.len() {
        let before = extra * passed / all;
        passed += weights[i];
        let upto = extra * passed / all;
        out[i] = least[i] + (upto - before);
    }
}

/// The sum of a list whose sum fits.
fn sum_of(numbers: &[u32]) -> u32
    requires { sum numbers.now < 2 ^ 32 }
    ensures { result ≡ sum numbers.now }
{
    numbers.iter().sum()
}
