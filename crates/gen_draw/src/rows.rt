//! How far down things stand in a picture, in pixels from the top.
ghost use Rattle.std.specs.Prelude.{◌≡◌, ◌<◌, ◌≤◌, ◌^◌};
ghost use Rattle.gen_draw.specs.Rows.{row_of, middle_of, legend_row};

/// Returns the height at which a general's line stands.
#[tactic(auto, unfolding(crate::specs::Rows::row_of))]
pub fn row_of(general: u8) -> u32
    ensures value { result ≡ row_of general }
    ensures room { 96 ≤ result }
    ensures small { result < 2 ^ 14 }
{
    96 + 56 * u32::from(general)
}

/// Returns the height half way between the lines of two generals, for words that stand there.
#[tactic(auto, unfolding(crate::specs::Rows::middle_of))]
pub fn middle_of(from: u8, to: u8) -> u32
    ensures value { result ≡ middle_of from to }
    ensures small { result < 2 ^ 14 }
{
    100 + 28 * (u32::from(from) + u32::from(to))
}

/// Returns the height of an order in the legend of a picture of this many generals.
#[tactic(auto, unfolding(crate::specs::Rows::legend_row))]
pub fn legend_row(generals: u8, order: u8) -> u32
    ensures value { result ≡ legend_row generals order }
    ensures small { result < 32000 }
{
    row_of(generals) + 24 + 18 * u32::from(order)
}
