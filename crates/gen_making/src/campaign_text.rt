//! The bytes of a campaign, kept in pieces so that its logs need no copy.
ghost use Rattle.std.specs.Prelude.{◌≡◌, ◌≤◌, ◌++◌, ◌∷◌, [], length, OnOk};
ghost use Rattle.std.specs.Int.{w32, to_be_bytes};
ghost use Rattle.std.specs.List.{flat_map};
ghost use Rattle.std.specs.Io.KnownBytes.{Appends};
ghost use Rattle.gen_campaign.specs.CampaignSpelling.{campaign_mark};
ghost use Rattle.gen_ends.specs.Answering.{DeliversText};

use crate::bundle_text::BundleText;
use gen_campaign::several_front;
use gen_ends::{JobEnd, JobFault};
use std::io;
use std::io::Write;
use std::marker::Model;

/// The bytes of a campaign of several runs, whole in memory: the five bytes before the bundles, and the text of each. A
/// contract sees the list of its bytes.
#[derive(Drop)]
pub(crate) struct CampaignText {
    front: [u8; 5],
    texts: Vec<BundleText>,
}

impl Model for CampaignText {
    ghost use Rattle.std.specs.Prelude.{ℕ, List, ◌++◌};
    ghost use Rattle.std.specs.List.{flat_map};

    ghost Value = { List ℕ };

    ghost view = { λ t. t.front ++ flat_map (λ text. text) t.texts.items };
}

impl CampaignText {
    /// Returns the bytes of the campaign whose runs' bundles have these texts, at most 255. The bytes are the mark, the
    /// number of runs, and the texts.
    pub(crate) fn new(texts: Vec<BundleText>) -> CampaignText
        requires { length texts.items ≤ 255 }
        ensures { result ≡ (to_be_bytes w32 campaign_mark ++ length texts.items ∷ [])
            ++ flat_map (λ text. text) texts.items }
    {
        CampaignText {
            front: several_front(texts.len() as u8),
            texts,
        }
    }

    /// Writes the bytes. It takes no memory.
    ///
    /// # Errors
    ///
    /// The error of the write that failed.
    pub(crate) fn write_to<W: Write>(&self, writer: &mut W) -> Result<(), io::Error>
        ensures { OnOk result (Appends (W.contents writer.old) (W.contents writer.new) self.now) }
    {
        writer.write_all(&self.front)?;
        let texts = self.texts.as_slice();
        'texts: for text in texts {
            text.write_to(writer)?;
        }
        Ok(())
    }
}

/// Writes the campaign that answers the input, or nothing if there is a fault in its place, and returns how the job
/// ends.
pub(crate) fn deliver_campaign<W: Write>(
    writer: &mut W,
    answer: Result<CampaignText, JobFault>,
) -> JobEnd
    ensures { DeliversText answer (W.contents writer.old) (W.contents writer.new) result }
{
    match answer {
        Ok(text) => {
            if text.write_to(writer).is_err() || writer.flush().is_err() {
                JobEnd::Failed(JobFault::Write)
            } else {
                JobEnd::Done
            }
        }
        Err(fault) => JobEnd::Failed(fault),
    }
}
