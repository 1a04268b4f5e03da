//! Laws of chains. Each is a function with an empty body whose contract is the law: a caller that
//! calls it knows the law.
ghost use Rattle.std.specs.Prelude.{◌≡◌, ◌≢◌, ◌++◌, List, ℕ, Ok};
ghost use Rattle.gen_types.specs.declared.heights.TreeHeight.{TreeHeight};
ghost use Rattle.gen_types.specs.Spelled.{HasOneSpelling};
ghost use Rattle.gen_net.specs.Header.{RunHeader};
ghost use Rattle.gen_chain.specs.Chain.{Chain, IsSignedChain, chain_spelling};
ghost use Rattle.gen_chain.specs.ChainReading.{chain_at};
ghost use Rattle.gen_chain.specs.declared.statements.Statement.{Statement};
ghost use Rattle.gen_chain.specs.declared.statements.HeadText.{HeadText};
ghost use Rattle.gen_chain.specs.Texts.{statement_text, head_text};
ghost use Rattle.gen_chain.specs.Verified.{TestsVerifying};

/// States that each chain has one spelling, and that no spelling of a chain is the beginning of another one of the same
/// height. If two equal strings begin with spellings of chains, the chains are equal, and so are the bytes after them.
pub fn one_chain_spelling()
    ensures { (height : TreeHeight) → HasOneSpelling (IsSignedChain height) chain_spelling }
{}

/// States that what is read as a chain is a chain (`chain`), and that the bytes begin with its spelling (`spelled`).
/// This holds of any list of numbers, even if they are no bytes.
pub fn chains_are_spelled()
    ensures chain { (height : TreeHeight) (bytes rest : List ℕ) (c : Chain)
        → chain_at height bytes ≡ Ok (c, rest) → IsSignedChain height c }
    ensures spelled { (height : TreeHeight) (bytes rest : List ℕ) (c : Chain)
        → chain_at height bytes ≡ Ok (c, rest) → bytes ≡ chain_spelling c ++ rest }
{}

/// States that no statement of any run is the head of a log of any run: their first bytes differ. So a signature of one
/// is none of the other, unless two texts have one digest.
pub fn no_statement_is_a_head()
    ensures { (h k : RunHeader) (statement : Statement) (head : HeadText)
        → statement_text h statement ≢ head_text k head }
{}

/// States that it can be tested whether a chain verifies: the test of the definitions is exact.
pub fn verifying_is_tested()
    ensures { TestsVerifying }
{}
