//! Keeps verifications with their answers, so that an answer can be returned again.
ghost use Rattle.std.specs.Prelude.{IsTrue, Bool, ℕ, List, ◌≡◌, ◌≢◌, ◌≤◌, ◌+◌, ◌↔◌, ◌++◌, ◌∷◌, [], AllPairs, length, false, Ok, None, Some, IfOk, IsOk, IsSome, OnOk, OnErr, ◌<◌, is_some, map, slice_index_or};
ghost use Rattle.gen_net.specs.Header.{RunHeader};
ghost use Rattle.gen_chain.specs.Chain.{signed_path};
ghost use Rattle.gen_chain.specs.declared.chains.Signer.{Signer};
ghost use Rattle.gen_chain.specs.Verifying.{HasSigned, EachHasSigned, ChainVerifies};
ghost use Rattle.gen_chain.specs.declared.kept.Verified.{Verified};
ghost use Rattle.gen_chain.specs.declared.kept.Kept.{Kept};
ghost use Rattle.gen_chain.specs.Keeping.{items_of};
ghost use Rattle.gen_chain.specs.Store.{Triple, answer_in, answer_of, same_verified, kept_at, kept_count, runs_of, IsAfter, KeepsAll, KeepsOnce, Serves};
ghost use Rattle.gen_chain.specs.Signings.{IsSigned, triple_next, triple_of};
ghost use Rattle.gen_chain.specs.StoredChain.{KeepsSigners, KeepsChain, KeepsNext};
ghost use Rattle.gen_chain.specs.Pooled.{LendsPool};
ghost use Rattle.gen_chain.specs.Taking.{Takes, TakesEach, triple_at};
ghost use Rattle.std.specs.Borrow.{sem};

use crate::chains::{SignedChain, Signer};
use crate::kept::{Kept, Verified};
use crate::signings::{Signing, have_signed, next_four};
use crate::sizes::MOST_SIGNERS;
use crate::statements::Statement;
use crate::verifying::has_signed;
use gen_net::Header;
use gen_tree::{Signature, SignaturePool};
use gen_types::{GeneralNo, OrderNo, Path};
use sha_lanes::LANES;
use std::alloc::{AllocError, Global};
use std::collections::BTreeMap;
use std::marker::Model;

/// Returns the answer that is kept for a signature, if there is one.
fn answer_in(kept: &[Kept], signature: &Signature) -> Option<bool>
    ensures { result ≡ answer_in kept.now signature.now }
{
    let found = kept.iter().find(|kept| kept.signature == *signature)?;
    Some(found.answer)
}

/// Appends a signature with its answer to those that are kept for a general and a statement.
fn keep(
    alloc: Global,
    kept: &mut BTreeMap<Verified, Vec<Kept>>,
    verified: Verified,
    last: Kept,
) -> Result<(), AllocError>
    ensures here { OnOk result (kept_at (items_of kept.new.entries) verified
        ≡ kept_at (items_of kept.old.entries) verified ++ last ∷ []) }
    ensures others { OnOk result ((other : Verified) → same_verified verified other ≡ false
        → kept_at (items_of kept.new.entries) other ≡ kept_at (items_of kept.old.entries) other) }
    ensures count { OnOk result (kept_count (record { kept = items_of kept.new.entries })
        ≡ kept_count (record { kept = items_of kept.old.entries }) + 1) }
    ensures err { OnErr result (items_of kept.new.entries ≡ items_of kept.old.entries) }
{
    if let Some(signatures) = kept.get_mut(&verified) {
        signatures.push(last)?;
        return Ok(());
    }
    let mut signatures = Vec::new(alloc);
    signatures.push(last)?;
    kept.insert(verified, signatures)?;
    Ok(())
}

/// Verifications that were made, each with its answer, so that the answer can be returned again.
///
/// A verification is of a triple: a signer, a statement and a signature. A contract sees what is kept. The number of
/// kept answers is counted as well, whatever calls were made; it is not a count of verifications. A store serves a
/// header if each kept answer is right under that header; an empty store serves every header.
#[derive(Debug, Drop)]
pub struct VerifyStore {
    alloc: Global,
    kept: BTreeMap<Verified, Vec<Kept>>,
    runs: u64,
    pool: SignaturePool,
}

impl Model for VerifyStore {
    ghost use Rattle.gen_chain.specs.Store.{Store};
    ghost use Rattle.gen_chain.specs.Keeping.{items_of, IsCounted};

    ghost Value = { Store };

    ghost view = { λ s. record { kept = items_of s.kept.entries } };

    ghost invariant = { λ s. IsCounted (record { kept = items_of s.kept.entries }) s.runs };
}

impl VerifyStore {
    /// Returns a store that keeps nothing, and so serves every header.
    ///
    /// # Errors
    ///
    /// None occurs, because no memory is taken before the first check.
    pub fn new(alloc: Global) -> Result<VerifyStore, AllocError>
        ensures ok { IsOk result }
        ensures empty { IfOk result (λ store. (triple : Triple) → answer_of store triple ≡ None) }
        ensures count { IfOk result (λ store. kept_count store ≡ 0) }
        ensures serves { IfOk result (λ store. (h : RunHeader) → Serves h store) }
    {
        Ok(VerifyStore {
            alloc,
            kept: BTreeMap::new(alloc),
            runs: 0,
            pool: SignaturePool::new(alloc),
        })
    }

    /// Returns the number of kept answers, which is no count of verifications. No answer is kept twice. The count stays
    /// at its last value, 2^64 - 1.
    pub fn runs(&self) -> u64
        ensures count { result ≡ runs_of self.now }
        ensures once { KeepsOnce self.now }
    {
        self.runs
    }

    /// Returns the store's pool. Signatures that are read with it share the memory of equal ones.
    pub fn pool(&mut self) -> &mut SignaturePool
        ensures* { sem 𝓛 (LendsPool self.entry result) }
    {
        &mut self.pool
    }

    /// Returns the answer that is kept for the signature of a statement by a general, if there is one.
    fn answer_of(&self, verified: &Verified, signature: &Signature) -> Option<bool>
        ensures { result ≡ answer_of self.now (record {
          signer = verified.now.signer;
          statement = verified.now.statement;
          signature = signature.now;
        }) }
    {
        match self.kept.get(verified) {
            Some(kept) => answer_in(kept.as_slice(), signature),
            None => None,
        }
    }

    /// Keeps the answer of a verification that was made. No answer is kept for it before.
    fn keep_answer(
        &mut self,
        verified: Verified,
        signature: &Signature,
        answer: bool,
    ) -> Result<(), AllocError>
        requires { answer_of self.old (record {
          signer = verified.signer;
          statement = verified.statement;
          signature = signature.now;
        }) ≡ None }
        ensures kept { OnOk result (IsAfter self.old
            (record { signer = verified.signer; statement = verified.statement; signature = signature.now })
            answer self.new) }
        ensures err { OnErr result (self.new ≡ self.old) }
    {
        let last = Kept {
            signature: signature.share(self.alloc)?,
            answer,
        };
        keep(self.alloc, &mut self.kept, verified, last)?;
        self.runs = self.runs.saturating_add(1);
        Ok(())
    }

    /// Keeps the answer of a verification that was made, unless one is kept already.
    fn add_answer(&mut self, signing: &Signing<'_>, answer: bool) -> Result<(), AllocError>
        ensures kept { OnOk result (IsSome (answer_of self.new (triple_of signing.now))) }
        ensures count { kept_count self.new ≤ kept_count self.old + 1 }
        ensures serves { (h : RunHeader) → Serves h self.old
            → IsTrue answer ↔ IsSigned h (triple_of signing.now)
            → Serves h self.new × KeepsAll self.old self.new }
    {
        if self.keeps(signing) {
            return Ok(());
        }
        let Signing {
            signer,
            statement,
            signature,
        } = *signing;
        self.keep_answer(Verified { signer, statement }, signature, answer)
    }

    /// Returns whether the answer is kept that says whether a general signed a statement with a signature.
    pub fn keeps(&self, signing: &Signing<'_>) -> bool
        ensures { result ≡ is_some (answer_of self.now (triple_of signing.now)) }
    {
        let Signing {
            signer,
            statement,
            signature,
        } = *signing;
        self.answer_of(&Verified { signer, statement }, signature)
            .is_some()
    }

    /// Keeps the answers that another store has for these signatures of a general and a statement, if it has any.
    fn take_answers(
        &mut self,
        header: &Header,
        other: &VerifyStore,
        verified: &Verified,
        signatures: &[Kept],
    ) -> Result<(), AllocError>
        requires serves { Serves header.now self.old }
        requires other { Serves header.now other.now }
        ensures taken { OnOk result (TakesEach other.now self.new verified.now signatures.now) }
        ensures grows { KeepsAll self.old self.new }
        ensures serves { Serves header.now self.new }
    {
        'signatures: for kept in signatures {
            if let Some(answer) = other.answer_of(verified, &kept.signature) {
                let signing = Signing {
                    signer: verified.signer,
                    statement: verified.statement,
                    signature: &kept.signature,
                };
                self.add_answer(&signing, answer)?;
            }
        }
        Ok(())
    }

    /// Keeps all answers of another store that serves the same header, with its own. Nothing is verified, and the bytes
    /// of signatures are shared.
    ///
    /// # Errors
    ///
    /// Only if memory is refused. Then the store keeps its own answers, and possibly some of the other store's.
    pub fn take_from(&mut self, header: &Header, other: &VerifyStore) -> Result<(), AllocError>
        requires serves { Serves header.now self.old }
        requires other { Serves header.now other.now }
        ensures taken { OnOk result (KeepsAll other.now self.new) }
        ensures grows { KeepsAll self.old self.new }
        ensures serves { Serves header.now self.new }
    {
        'statements: for (verified, signatures) in other.kept.iter() {
            self.take_answers(header, other, verified, signatures.as_slice())?;
        }
        Ok(())
    }

    /// Verifies at most `LANES` signatures of statements, each as `has_signed` does, and keeps the answers that are not
    /// kept yet. A later check of one of them verifies nothing. If there are signatures for at least half of the lanes,
    /// they are verified side by side.
    ///
    /// # Errors
    ///
    /// Only if memory is refused. Then the store keeps its old answers, and possibly some of the new ones.
    pub fn verify_lanes(
        &mut self,
        header: &Header,
        signings: &[Signing<'_>],
    ) -> Result<(), AllocError>
        requires few { length signings.now ≤ LANES }
        requires serves { Serves header.now self.old }
        ensures kept { OnOk result ((j : ℕ) → j < length signings.now → (other : Triple)
            → IsSome (answer_of self.new (slice_index_or (map triple_of signings.now) j other))) }
        ensures count { kept_count self.new ≤ kept_count self.old + length signings.now }
        ensures grows { KeepsAll self.old self.new }
        ensures serves { Serves header.now self.new }
    {
        let answers = have_signed(header, signings);
        'places: for place in 0..signings.len() {
            self.add_answer(&signings[place], answers[place])?;
        }
        Ok(())
    }

    /// Verifies the signatures of the next four signers side by side, unless an answer is kept for one of them. `ahead`
    /// is the number of next signers whose answers are known to be kept; the result is that number after the call.
    fn look_ahead(
        &mut self,
        header: &Header,
        order: OrderNo,
        path: &Path,
        rest: &[Signer],
        ahead: usize,
    ) -> Result<usize, AllocError>
        requires few { length path.now + length rest.now ≤ MOST_SIGNERS }
        requires distinct { AllPairs (λ g h. g ≢ h) (path.now ++ signed_path rest.now) }
        requires serves { Serves header.now self.old }
        requires ahead { KeepsNext self.old order ahead path.now rest.now }
        ensures ahead { IfOk result (λ next. KeepsNext self.new order next path.now rest.now
            × (kept_count self.new + ahead ≤ kept_count self.old + next)) }
        ensures count { kept_count self.new + ahead ≤ kept_count self.old + length rest.now }
        ensures known { (s : Signer) (others : List Signer) → rest.now ≡ s ∷ others
            → IsSome (answer_of self.old (triple_next order path.now s)) → IsOk result × (self.new ≡ self.old) }
        ensures grows { KeepsAll self.old self.new }
        ensures serves { Serves header.now self.new }
    {
        if ahead > 0 || rest.len() < 4 {
            return Ok(ahead);
        }
        let mut path = *path;
        let signings = next_four(order, &mut path, rest);
        let [a, b, c, d] = &signings;
        if self.keeps(a) || self.keeps(b) || self.keeps(c) || self.keeps(d) {
            return Ok(0);
        }
        self.verify_lanes(header, &signings)?;
        Ok(4)
    }

    /// Returns whether a general signed a statement in the run of this header, as `has_signed` does. The answer is
    /// kept. If it is kept already, nothing is verified and no memory is taken.
    ///
    /// # Errors
    ///
    /// Only if memory is refused. Then the store is unchanged.
    pub fn check(
        &mut self,
        header: &Header,
        signer: GeneralNo,
        statement: &Statement,
        signature: &Signature,
    ) -> Result<bool, AllocError>
        requires serves { Serves header.now self.old }
        ensures answer { IfOk result (λ answer.
            IsTrue answer ↔ HasSigned header.now signer statement.now signature.now) }
        // After the check the answer to this triple is kept, and all others are as before. One more answer is kept if
        // this one wasn't kept before.
        ensures kept { IfOk result (λ answer. IsAfter self.old
            (record { signer = signer; statement = statement.now; signature = signature.now })
            answer self.new) }
        // A kept answer is returned again, and the store is unchanged.
        ensures known { (answer : Bool) → answer_of self.old
            (record { signer = signer; statement = statement.now; signature = signature.now })
            ≡ Some answer → (result ≡ Ok answer) × (self.new ≡ self.old) }
        ensures err { OnErr result (self.new ≡ self.old) }
        ensures grows { KeepsAll self.old self.new }
        ensures serves { Serves header.now self.new }
    {
        let verified = Verified {
            signer,
            statement: *statement,
        };
        if let Some(answer) = self.answer_of(&verified, signature) {
            return Ok(answer);
        }
        let answer = has_signed(header, signer, statement, signature);
        self.keep_answer(verified, signature, answer)?;
        Ok(answer)
    }

    /// Whether each signer signed the order together with the path up to and with itself.
    fn are_signed(
        &mut self,
        header: &Header,
        order: OrderNo,
        signers: &[Signer],
    ) -> Result<bool, AllocError>
        requires few { length signers.now ≤ MOST_SIGNERS }
        requires distinct { AllPairs (λ g h. g ≢ h) (signed_path signers.now) }
        requires serves { Serves header.now self.old }
        ensures value { IfOk result (λ answer. IsTrue answer ↔ EachHasSigned header.now order signers.now) }
        ensures kept { OnOk result (KeepsSigners header.now self.new order signers.now) }
        ensures known { KeepsSigners header.now self.old order signers.now
            → IsOk result × (self.new ≡ self.old) }
        ensures count { kept_count self.new ≤ kept_count self.old + length signers.now }
        ensures grows { KeepsAll self.old self.new }
        ensures serves { Serves header.now self.new }
    {
        let mut path = Path::new();
        let mut rest = signers;
        let mut ahead = 0;
        while let Some((signer, others)) = rest.split_first() {
            let next = self.look_ahead(header, order, &path, rest, ahead)?;
            path.push_new(signer.general);
            let statement = Statement { order, path };
            let signed = self.check(header, signer.general, &statement, &signer.signature)?;
            if !signed {
                return Ok(false);
            }
            rest = others;
            ahead = next.saturating_sub(1);
        }
        Ok(true)
    }

    /// Returns whether a chain verifies in the run of this header, as `gen_chain::chain_verifies` does. Its signatures
    /// are checked from the first signer on, up to the first one that fails, and the answers are kept. If all these
    /// answers are kept already, it takes no memory and adds no answer. If no answer is kept for the next four signers,
    /// their four signatures are verified side by side.
    ///
    /// # Errors
    ///
    /// Only if memory is refused. Then the store keeps the checks that were made before.
    pub fn chain_verifies(
        &mut self,
        header: &Header,
        chain: &SignedChain,
    ) -> Result<bool, AllocError>
        requires serves { Serves header.now self.old }
        ensures answer { IfOk result (λ answer. IsTrue answer ↔ ChainVerifies header.now chain.now) }
        ensures kept { OnOk result (KeepsChain header.now self.new chain.now) }
        // If all answers were kept, the store is unchanged.
        ensures known { KeepsChain header.now self.old chain.now → IsOk result × (self.new ≡ self.old) }
        ensures count { kept_count self.new ≤ kept_count self.old + length chain.now.signers }
        ensures grows { KeepsAll self.old self.new }
        ensures serves { Serves header.now self.new }
    {
        if chain.order.get() >= header.net().orders() {
            return Ok(false);
        }
        self.are_signed(header, chain.order, &chain.signers)
    }
}
