//! The message schedules of blocks side by side, one in each lane (FIPS 180-4, section 6.2.2, step 1).
ghost use Rattle.std.specs.Prelude.{◌≡◌, ℕ, ◌<◌, ◌≤◌, ◌-◌, List, [], length, slice_index, slice_index_or, slice_set, take};
ghost use Rattle.sha2.specs.Sha256.{next_word, schedule};
ghost use Rattle.sha_lanes.specs.Lanes.{HasWords, lane, lane_at};

use crate::rounds::{BLOCK_WORDS, ROUNDS};
use crate::words::{LANES, Words, add, small_sigma0, small_sigma1};
use std::marker::Model;

// The words of one round, one in each lane.
#[derive(Clone, Copy)]
struct Row {
    lanes: Words,
}

/// Room for the message schedules of blocks side by side, one in each lane: for each round one word of each
/// block.
///
/// What the room has between two calls has no meaning, since each call writes a word before it reads the
/// word. The room is filled with zeros when it is made. So a caller that hashes many messages makes it
/// once and lends it to each call.
#[derive(Drop)]
pub struct Schedules {
    // The value means nothing. The field aligns the rows to 16 bytes, so that no row lies on two lines of
    // a cache.
    alignment: u128,
    rows: [Row; ROUNDS],
}

impl Model for Schedules {
    ghost use Rattle.std.specs.Prelude.{◌≡◌, List, ℕ, length, map};
    ghost use Rattle.sha_lanes.specs.declared.scheduling.Row.{Row};

    ghost Value = { List (List ℕ) };

    ghost view = { λ s. map (λ (row : Row). row.lanes) s.rows };

    ghost invariant = { λ s. length s.rows ≡ 64 };
}

impl Schedules {
    /// Returns room that is filled with zeros.
    pub fn new() -> Schedules {
        Schedules {
            alignment: 0,
            rows: [Row {
                lanes: Words::splat(0),
            }; ROUNDS],
        }
    }

    /// Returns the words of round `t`, one in each lane.
    #[inline(always)]
    pub(crate) fn word(&self, t: usize) -> Words
        requires { t < ROUNDS }
        ensures width { length self.now ≡ ROUNDS }
        ensures value { result ≡ slice_index_or self.now t [] }
    {
        self.rows[t].lanes
    }

    /// Sets the words of round `t`.
    #[inline(always)]
    pub(crate) fn set_word(&mut self, t: usize, word: Words)
        requires { t < ROUNDS }
        ensures { self.new ≡ slice_set self.old t word }
    {
        self.rows[t].lanes = word;
    }

    /// Sets the words of the first 16 rounds to those of a block in each lane.
    #[inline(always)]
    pub(crate) fn begin(&mut self, block: &[Words; BLOCK_WORDS])
        ensures { take 16 self.new ≡ block.now }
    {
        let _ = &self.rows;
        'block: for t in 0..BLOCK_WORDS {
            self.set_word(t, block[t]);
        }
    }

    // Returns word `t` of the schedules, made of the words before it. Word `t - 2` is given.
    #[inline(always)]
    fn next_word(&self, t: usize, second_last: Words) -> Words
        requires block { BLOCK_WORDS ≤ t }
        requires below { t < ROUNDS }
        ensures { (j : ℕ) → j < LANES → slice_index second_last j ≡ lane_at self.now (t - 2) j
            → slice_index result j ≡ next_word (lane j self.now) t }
    {
        let near = add(small_sigma1(second_last), self.word(t - 7));
        add(
            add(near, small_sigma0(self.word(t - 15))),
            self.word(t - 16),
        )
    }

    /// Sets the words of all rounds after the first 16, made of the words of the blocks with which the
    /// schedules were begun. Each turn makes two words, which are at hand for the next turn.
    #[inline(always)]
    pub(crate) fn extend(&mut self)
        ensures { (j : ℕ) → j < LANES → (b : List ℕ) → HasWords j (take 16 self.old) b
            → lane j self.new ≡ schedule b 48 }
    {
        let mut even = self.word(BLOCK_WORDS - 2);
        let mut odd = self.word(BLOCK_WORDS - 1);
        'pairs: for pair in BLOCK_WORDS / 2..ROUNDS / 2 {
            let t = 2 * pair;
            even = self.next_word(t, even);
            self.set_word(t, even);
            odd = self.next_word(t + 1, odd);
            self.set_word(t + 1, odd);
        }
    }
}
