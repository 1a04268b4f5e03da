//! Finding a chain among what a general heard.
ghost use Rattle.std.specs.Prelude.{◌≡◌, option_map};
ghost use Rattle.gen_scenario.specs.Heard.{first_of, heard_from};

use gen_scenario::Heard;
use gen_types::{GeneralNo, OrderNo};

/// Returns the first chain of an order among what was heard.
pub(crate) fn first_heard(order: OrderNo, heard: &[Heard]) -> Option<&Heard>
    ensures { option_map (λ x. x.now) result ≡ first_of order heard.now }
{
    let mut rest = heard;
    'rest: while let Some((x, others)) = rest.split_first() {
        if x.chain.order() == order {
            return Some(x);
        }
        rest = others;
    }
    None
}

/// Returns the first chain of an order that came from a sender in a round.
pub(crate) fn find_heard(
    round: u8,
    from: GeneralNo,
    order: OrderNo,
    heard: &[Heard],
) -> Option<&Heard>
    ensures { option_map (λ x. x.now) result ≡ heard_from round from order heard.now }
{
    let mut rest = heard;
    'rest: while let Some((x, others)) = rest.split_first() {
        let in_round = x.chain.path().len() == usize::from(round);
        if x.from == from && x.chain.order() == order && in_round {
            return Some(x);
        }
        rest = others;
    }
    None
}
