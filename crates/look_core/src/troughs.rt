ghost use Rattle.std.specs.Prelude.{◌≡◌, ◌≤◌, ◌<◌, ◌-◌, ◌+◌, ◌*◌, ◌^◌};
ghost use Rattle.look_core.specs.Knob.{scale_knob, scrollbar_knob, scrollbar_knob_length, is_on_knob};

use crate::knob::Knob;

/// The knob of a Scale whose trough has the length, at a value from 0 to `max`.
#[tactic(auto, using(crate::proofs::KnobLemmas::small_product, crate::proofs::KnobLemmas::small_share))]
pub fn scale_knob(length: u32, value: u32, max: u32) -> Knob
    requires short { length ≤ 4128 }
    requires some { 1 ≤ max }
    requires most { max ≤ 10000 }
    requires value { value ≤ max }
    ensures knob { result ≡ scale_knob length value max }
    ensures within { result.from ≤ length }
{
    let free = length.saturating_sub(8);
    Knob {
        from: free * value / max,
        len: 8,
    }
}

/// The knob of a Scrollbar whose trough has the length, at a value from 0 to `real - view`.
#[tactic(auto, using(crate::proofs::KnobLemmas::small_product, crate::proofs::KnobLemmas::small_share))]
pub fn scrollbar_knob(length: u32, value: u32, real: u32, view: u32) -> Knob
    requires short { length ≤ 4128 }
    requires most { real ≤ 10000 }
    requires value { value ≤ real - view }
    ensures knob { result ≡ scrollbar_knob length value real view }
    ensures from { result.from ≤ length }
    ensures len { result.len ≤ length }
{
    if real <= view {
        return Knob {
            from: 0,
            len: length,
        };
    }
    let len = length.min((length * view / real).max(8));
    let free = length - len;
    Knob {
        from: free * value / (real - view),
        len,
    }
}
