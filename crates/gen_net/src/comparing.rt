//! Whether two networks, or two headers, are the same.
ghost use Rattle.std.specs.Cmp.{partial_equiv_from_equiv};
ghost use Rattle.gen_net.specs.SameHeaders.{same_network, same_header};
ghost use Rattle.gen_net.specs.SameHeaderLaws.{same_network_equiv, same_header_equiv};

use crate::headers::Header;
use crate::net::Net;

/// Two networks are equal if and only if they have the same numbers, the same edges and the same choice.
impl PartialEq for Net {
    ghost eq = { same_network };

    ghost laws = { partial_equiv_from_equiv same_network_equiv };

    #[tactic(auto, unfolding(crate::specs::SameHeaders::same_network))]
    fn eq(&self, other: &Net) -> bool {
        self.generals() == other.generals()
            && self.traitors() == other.traitors()
            && self.diameter() == other.diameter()
            && self.orders() == other.orders()
            && self.choice().number() == other.choice().number()
            && self.edges() == other.edges()
    }
}

impl Eq for Net {
    ghost laws = { same_network_equiv };
}

/// Two headers are equal if and only if they have the same version, with its slot, the same network and the same roots.
impl PartialEq for Header {
    ghost eq = { same_header };

    ghost laws = { partial_equiv_from_equiv same_header_equiv };

    #[tactic(auto, unfolding(crate::specs::SameHeaders::same_header))]
    fn eq(&self, other: &Header) -> bool {
        self.version() == other.version()
            && self.net() == other.net()
            && self.roots() == other.roots()
    }
}

impl Eq for Header {
    ghost laws = { same_header_equiv };
}
