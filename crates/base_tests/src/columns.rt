//! Room spread over columns.
ghost use Rattle.std.specs.Prelude.{◌≡◌, ◌≤◌, length};
ghost use Rattle.std.specs.List.{All};

use grid_layout::spread;
use std::process::Abort;

/// Columns of these least widths and weights get these widths of the room.
fn gets(rt: &impl Abort, least: &[u32], weights: &[u32], room: u32, widths: &[u32])
    requires weight_each { length weights.now ≡ length least.now }
    requires width_each { length widths.now ≡ length least.now }
    requires few { length least.now ≤ 3 }
    requires least_small { All (λ n. n ≤ 4128) least.now }
    requires weights_small { All (λ n. n ≤ 1000) weights.now }
    requires room_small { room ≤ 4128 }
{
    let mut out = [9u32; 3];
    let used = &mut out[..least.len()];
    spread(least, weights, room, used);
    assert_eq!(rt; out[..least.len()], *widths);
}

#[test]
fn shares_by_weight(rt: HostRuntime) {
    gets(&rt, &[0, 0, 0], &[1, 1, 1], 10, &[3, 3, 4]);
    gets(&rt, &[5, 0, 1], &[0, 3, 1], 20, &[5, 10, 5]);
}

#[test]
fn gives_the_last_all_where_nothing_weighs(rt: HostRuntime) {
    gets(&rt, &[0, 0, 0], &[0, 0, 0], 10, &[0, 0, 10]);
}

#[test]
fn keeps_the_least_widths(rt: HostRuntime) {
    gets(&rt, &[6, 6], &[1, 1], 10, &[6, 6]);
    gets(&rt, &[4128, 4128], &[1000, 1000], 4128, &[4128, 4128]);
    gets(&rt, &[0, 0], &[1000, 1000], 4128, &[2064, 2064]);
}

#[test]
fn writes_nothing_without_columns(rt: HostRuntime) {
    gets(&rt, &[], &[], 10, &[]);
}
