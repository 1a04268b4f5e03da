//! What a scenario text says.
ghost use Rattle.std.specs.Prelude.{◌≡◌};
ghost use Rattle.gen_text.specs.Told.{net_of, order_of};

use gen_net::Net;
use gen_scenario::{PlainScenario, SignedPlan};
use gen_types::OrderNo;

/// What a scenario text says.
#[derive(Debug, Drop)]
pub enum ScenarioText {
    /// A scenario without signatures, in which every general follows the algorithm: the text has no seed.
    Plain(PlainScenario),
    /// A scenario in which generals sign: the text has a seed.
    Signed(SignedPlan),
}

impl ScenarioText {
    /// Returns the network.
    pub fn net(&self) -> &Net
        ensures { result.now ≡ net_of self.now }
    {
        match self {
            ScenarioText::Plain(plain) => plain.net(),
            ScenarioText::Signed(signed) => signed.net(),
        }
    }

    /// Returns the commander's order.
    pub fn order(&self) -> OrderNo
        ensures { result ≡ order_of self.now }
    {
        match self {
            ScenarioText::Plain(plain) => plain.order(),
            ScenarioText::Signed(signed) => signed.order(),
        }
    }
}
