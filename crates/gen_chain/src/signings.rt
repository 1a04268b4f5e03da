//! Verifies signatures of statements side by side.
ghost use Rattle.std.specs.Prelude.{IsTrue, ℕ, ◌≡◌, ◌≢◌, ◌≤◌, ◌<◌, ◌+◌, ◌↔◌, ◌++◌, ◌∷◌, [], AllPairs, Contains, false, length, map, slice_index_or, take};
ghost use Rattle.gen_tree.specs.Claims.{Stands};
ghost use Rattle.gen_chain.specs.Chain.{signed_path};
ghost use Rattle.gen_chain.specs.Signings.{triple_of, next_triples, IsSigned};
ghost use Rattle.gen_chain.specs.Store.{Triple};
ghost use Rattle.gen_chain.specs.declared.signings.Signing.{Signing};
ghost use Rattle.gen_tree.specs.declared.claims.SignatureClaim.{SignatureClaim};

use crate::chains::Signer;
use crate::leaves::leaf_of_order;
use crate::sizes::MOST_SIGNERS;
use crate::statements::{Statement, statement_digest};
use crate::verifying::has_signed;
use gen_net::Header;
use gen_tree::{Signature, SignatureClaim, verify_claims};
use gen_types::{GeneralNo, OrderNo, Path};
use sha_lanes::LANES;

/// A claim, by whoever shows it, that a general signed a statement with this signature.
#[derive(Clone, Copy)]
pub struct Signing<'a> {
    /// The general.
    pub signer: GeneralNo,
    /// The statement.
    pub statement: Statement,
    /// The signature. It may be any bytes.
    pub signature: &'a Signature,
}

impl<'a> Signing<'a> {
    /// Returns the claim that the next signer of an order signed it with the path up to itself, and appends the signer
    /// to the path.
    fn next(order: OrderNo, path: &mut Path, signer: &'a Signer) -> Signing<'a>
        requires room { length path.old < MOST_SIGNERS }
        requires new { ¬ Contains path.old signer.now.general }
        ensures path { path.new ≡ path.old ++ signer.now.general ∷ [] }
        ensures value { triple_of result ≡ record {
          signer = signer.now.general;
          statement = record { order = order; path = path.old ++ signer.now.general ∷ [] };
          signature = signer.now.signature;
        } }
    {
        path.push_new(signer.general);
        Signing {
            signer: signer.general,
            statement: Statement { order, path: *path },
            signature: &signer.signature,
        }
    }

    /// Returns the claim about the signature and the general's root. The general is below n.
    fn claim<'b>(&'b self, header: &'b Header) -> SignatureClaim<'b>
        requires { self.now.signer < header.now.network.generals }
        ensures { Stands result ↔ IsSigned header.now (triple_of self.now) }
    {
        SignatureClaim {
            root: header.root(self.signer),
            height: header.height(),
            leaf: leaf_of_order(header, self.statement.order),
            digest: statement_digest(header, &self.statement),
            signature: self.signature,
        }
    }
}

/// Returns the claims that the next four signers of an order signed it, each with the path up to itself, and appends
/// these signers to the path.
pub(crate) fn next_four<'a>(order: OrderNo, path: &mut Path, rest: &'a [Signer]) -> [Signing<'a>; 4]
    requires many { 4 ≤ length rest.now }
    requires few { length path.old + 4 ≤ MOST_SIGNERS }
    requires distinct { AllPairs (λ g h. g ≢ h) (path.old ++ signed_path (take 4 rest.now)) }
    ensures width { length result ≡ 4 }
    ensures path { path.new ≡ path.old ++ signed_path (take 4 rest.now) }
    ensures value { map triple_of result ≡ next_triples order path.old (take 4 rest.now) }
{
    let (a, b, c, d) = (&rest[0], &rest[1], &rest[2], &rest[3]);
    [
        Signing::next(order, path, a),
        Signing::next(order, path, b),
        Signing::next(order, path, c),
        Signing::next(order, path, d),
    ]
}

/// Whether the general of each claim is below n.
fn are_of(header: &Header, signings: &[Signing<'_>]) -> bool
    ensures { IsTrue result → (j : ℕ) → j < length signings.now → (d : Signing)
        → (slice_index_or signings.now j d).signer < header.now.network.generals }
{
    'places: for place in 0..signings.len() {
        let signing = &signings[place];
        if signing.signer.get() >= header.net().generals() {
            return false;
        }
    }
    true
}

/// Returns the claims about the signatures and the generals' roots, at least one and at most `LANES` of them, and the
/// first one again in the lanes that are left over. Each general is below n.
fn claims_of<'b>(header: &'b Header, signings: &'b [Signing<'_>]) -> [SignatureClaim<'b>; LANES]
    requires some { 0 < length signings.now }
    requires few { length signings.now ≤ LANES }
    requires generals { (j : ℕ) → j < length signings.now → (d : Signing)
        → (slice_index_or signings.now j d).signer < header.now.network.generals }
    ensures width { length result ≡ LANES }
    ensures claims { (j : ℕ) → j < length signings.now → (d : SignatureClaim) → (other : Triple)
        → Stands (slice_index_or result j d) ↔ IsSigned header.now (slice_index_or (map triple_of signings.now) j other) }
{
    let mut claims = [signings[0].claim(header); LANES];
    'places: for place in 0..signings.len() {
        claims[place] = signings[place].claim(header);
    }
    claims
}

/// Returns, for each of at most `LANES` claims, whether the general signed the statement, as `has_signed` does for one.
/// What the result has behind these answers says nothing. It takes no memory.
pub(crate) fn have_signed(header: &Header, signings: &[Signing<'_>]) -> [bool; LANES]
    requires { length signings.now ≤ LANES }
    ensures { (j : ℕ) → j < length signings.now → (other : Triple) → IsTrue (slice_index_or result j false)
        ↔ IsSigned header.now (slice_index_or (map triple_of signings.now) j other) }
{
    if signings.is_empty() || !are_of(header, signings) {
        let mut answers = [false; LANES];
        'places: for place in 0..signings.len() {
            let claim = &signings[place];
            answers[place] = has_signed(header, claim.signer, &claim.statement, claim.signature);
        }
        return answers;
    }
    let claims = claims_of(header, signings);
    verify_claims(&claims[..signings.len()])
}

/// Whether the first four answers are true.
pub(crate) fn four_true(answers: &[bool; LANES]) -> bool
    ensures { IsTrue result ↔ ((j : ℕ) → j < 4 → IsTrue (slice_index_or answers.now j false)) }
{
    answers[0] && answers[1] && answers[2] && answers[3]
}
