//! Lists of edges, as they are given and as a network keeps them.
ghost use Rattle.std.specs.Prelude.{◌≡◌};
ghost use Rattle.std.specs.List.{list_any};
ghost use Rattle.gen_net.specs.Edges.{joins, has_bad_edge, in_place};

/// Whether a given pair joins a and b, in either direction.
pub fn is_joined(a: u8, b: u8, given: &[(u8, u8)]) -> bool
    ensures { result ≡ list_any (joins a b) given.now }
{
    given
        .iter()
        .any(|e| (e.0 == a && e.1 == b) || (e.0 == b && e.1 == a))
}

/// Whether one of the given pairs is not two different generals below n, or comes twice, in either direction.
pub fn has_fault(n: u8, given: &[(u8, u8)]) -> bool
    ensures { result ≡ has_bad_edge n given.now }
{
    let mut rest = given;
    while let [(a, b), others @ ..] = rest {
        if *a >= n || *b >= n || *a == *b || is_joined(*a, *b, others) {
            return true;
        }
        rest = others;
    }
    false
}

/// Whether each edge (a, b) has a < b < n, and the edges ascend strictly.
pub fn stand_in_place(n: u8, edges: &[(u8, u8)]) -> bool
    ensures { result ≡ in_place n edges.now }
{
    let mut rest = edges;
    while let [(a, b), others @ ..] = rest {
        if *a >= *b || *b >= n {
            return false;
        }
        if let [(c, d), ..] = others {
            if !(*a < *c || (*a == *c && *b < *d)) {
                return false;
            }
        }
        rest = others;
    }
    true
}
