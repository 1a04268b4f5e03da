//! How much was put on an edge and taken from it, as its passes keep it.
ghost use Rattle.std.specs.Prelude.{◌≡◌};
ghost use Rattle.gen_edge.specs.Ends.{put_view, take_view};

use crate::passes::{PutPass, TakePass};

impl PutPass {
    /// Returns the number of frames that were put, 0 to R: those of the first rounds, one for each.
    pub fn put(&self) -> u8
        ensures { result ≡ (put_view self.now).put }
    {
        self.put
    }

    /// Whether the word that no more comes was put. Then nothing may be put any more.
    pub fn has_ended(&self) -> bool
        ensures { result ≡ (put_view self.now).gone_put }
    {
        self.gone
    }
}

impl TakePass {
    /// Returns the number of frames that were taken, 0 to R: those of the first rounds, one for each.
    pub fn taken(&self) -> u8
        ensures { result ≡ (take_view self.now).taken }
    {
        self.taken
    }

    /// Whether the word that no more comes was taken. Then nothing comes any more.
    pub fn has_ended(&self) -> bool
        ensures { result ≡ (take_view self.now).gone_taken }
    {
        self.gone
    }
}
