//! Laws: what a signature gives away that its holder did not make. Each holds of the definitions alone, and
//! its proof can be computed from the holder's seed.
ghost use Rattle.gen_lms.specs.Laws.{ForgedMessageGivesAway, ForgeryGivesAway, LeafHasOneKey, OtherHashGivesAway};

/// States that two one-time public keys at one leaf under one root are one, or that two texts of the tree have
/// one hash.
pub fn leaf_has_one_key()
    ensures { LeafHasOneKey }
{}

/// States that values which stand for a public key, of another hash than the one that was signed, give the key
/// away: two texts have one hash, or someone knows a value of a chain that stands before the one that was
/// shown.
pub fn other_hash_gives_the_key_away()
    ensures { OtherHashGivesAway }
{}

/// States the same of a signature that verifies under the public key of a tree, and that signs another hash
/// than the one that was signed by its leaf.
pub fn forgery_gives_the_key_away()
    ensures { ForgeryGivesAway }
{}

/// States the same of a signature of another message than the one that was signed by its leaf: or the texts of both
/// messages have one hash.
pub fn forged_message_gives_the_key_away()
    ensures { ForgedMessageGivesAway }
{}
