//! The value that a Scale or Scrollbar takes from the pointer.

ghost use Rattle.std.specs.Prelude.{◌≡◌, ◌≤◌, ◌-◌};
ghost use Rattle.kind_core.specs.Effective.{clamp};
ghost use Rattle.look_core.specs.Knob.{scrollbar_knob_length};
ghost use Rattle.desk_model.specs.InputValues.{value_at, knob_start};

/// `low` where v is below it, `high` where v is above it, else v.
pub(crate) fn clamp(v: i64, low: i64, high: i64) -> i64
    ensures { result ≡ clamp v low high }
{
    if v < low {
        low
    } else if high < v {
        high
    } else {
        v
    }
}

/// How long the knob of a Scrollbar is in a trough of that length.
#[tactic(auto, using(desk_model::proofs::Shares::product))]
pub(crate) fn scrollbar_knob_length(trough: u32, real: u32, view: u32) -> u32
    requires trough { trough ≤ 1048576 }
    requires real { 1 ≤ real }
    requires view { view ≤ 10000 }
    ensures length { result ≡ scrollbar_knob_length trough real view }
{
    let share = u64::from(trough) * u64::from(view) / u64::from(real);
    u64::from(trough).min(share.max(8)) as u32
}

/// Where a knob begins whose middle is to be at the place t of its trough, as far as it fits.
fn knob_start(trough: u32, knob: u32, t: i32) -> u32
    requires trough { trough ≤ 1048576 }
    requires knob { knob ≤ trough }
    ensures start { result ≡ knob_start trough knob t }
    ensures within { result ≤ trough - knob }
{
    let free = i64::from(trough - knob);
    clamp(i64::from(t) - i64::from(knob / 2), 0, free) as u32
}

/// The value at which the knob's middle is nearest to the place t of its trough, from 0 to `most`
/// (docs/MACHINE.md, "Input").
#[tactic(auto, using(desk_model::proofs::Shares::product, desk_model::proofs::Shares::share), unfolding(desk_model::specs::InputValues::value_at))]
pub(crate) fn value_at(trough: u32, knob: u32, most: u32, t: i32) -> u32
    requires trough { trough ≤ 1048576 }
    requires most { most ≤ 10000 }
    ensures value { result ≡ value_at trough knob most t }
    ensures within { result ≤ most }
{
    if trough <= knob {
        return 0;
    }
    let free = trough - knob;
    let start = knob_start(trough, knob, t);
    (u64::from(start) * u64::from(most) / u64::from(free)) as u32
}
