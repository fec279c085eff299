// A row of sage's Feature, as far as the models read it: which rows train. A row's fields lie in columns, one slice for
// each.
#![tactic(auto)]

ghost use Rattle.std.specs.Prelude.{◌≡◌};
ghost use Rattle.feature.specs.Feature.{trains};

// Whether a row with this label and this q trains.
pub fn trains(label: i32, q: f32) -> bool
    ensures { result ≡ trains label q }
{
    label == 1 && q <= 0.01
}
