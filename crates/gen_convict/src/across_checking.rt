//! Checks and refutes evidence across runs.
ghost use Rattle.std.specs.Prelude.{IsTrue, ◌≡◌, ◌<◌, ◌⊎◌, ◌↔◌, IfOk};
ghost use Rattle.gen_net.specs.Header.{run_id_of};
ghost use Rattle.gen_convict.specs.Across.{AreAcross, IsAcrossFrom};
ghost use Rattle.gen_convict.specs.AcrossAnswers.{IsAnswerAcross};
ghost use Rattle.gen_convict.specs.Answers.{answer_of};
ghost use Rattle.gen_convict.specs.Refuting.{run_id_text};

use crate::checking::text_verifies;
use crate::laws::headers_collide;
use crate::refutations::Refutation;
use crate::refuting::forged;
use crate::rivals::is_rival;
use crate::run_texts::RunText;
use crate::seen_texts::SeenText;
use gen_log::Log;
use gen_net::{Header, header_bytes};
use gen_types::GeneralNo;
use std::alloc::{AllocError, Global};

/// The byte before a header's spelling in the text that is hashed for its run id.
const RUN_ID_PREFIX: u8 = 0x31;

/// Whether both texts verify as the general's, each under the header of its run, and contradict each other across the
/// two runs, and the header of the first is this header.
pub fn is_across_from(
    header: &Header,
    general: GeneralNo,
    first: &RunText,
    second: &RunText,
) -> bool
    requires { general < header.now.network.generals }
    ensures { IsTrue result ↔ IsAcrossFrom header.now general first.now second.now }
{
    if *header != first.header {
        return false;
    }
    let one = SeenText {
        header: &first.header,
        text: &first.text,
    };
    let other = SeenText {
        header: &second.header,
        text: &second.text,
    };
    if !is_rival(one, other) {
        return false;
    }
    text_verifies(&first.header, general, &first.text)
        && text_verifies(&second.header, general, &second.text)
}

/// Returns the bytes whose SHA-256 is a header's run id: the byte 0x31 and the header's spelling.
fn hashed_header(alloc: Global, header: &Header) -> Result<Vec<u8>, AllocError>
    ensures { IfOk result (λ bytes. bytes.items ≡ run_id_text header.now) }
{
    let mut bytes = Vec::new(alloc);
    bytes.push(RUN_ID_PREFIX)?;
    bytes.extend_from_slice(&header_bytes(alloc, header)?)?;
    Ok(bytes)
}

/// Answers evidence of two texts of a general that contradict each other across runs. The answer is the text of the run
/// that the general's own log isn't of. If both runs have one run id, the answer is what is hashed for it of the two
/// headers: two texts with one SHA-256.
///
/// # Errors
///
/// `AllocError` where memory is refused.
pub fn refute_across(
    alloc: Global,
    general: GeneralNo,
    first: &RunText,
    second: &RunText,
    own: &Log,
) -> Result<Refutation, AllocError>
    requires { AreAcross general first.now second.now }
    ensures { IfOk result
        (λ answer. IsAnswerAcross general first.now second.now own.now (answer_of answer)) }
{
    // Reading the networks makes the invariants of the headers known.
    let _net = first.header.net();
    let _other = second.header.net();
    headers_collide();
    if *first.header.run_id() == *second.header.run_id() {
        let left = hashed_header(alloc, &first.header)?;
        let right = hashed_header(alloc, &second.header)?;
        return Ok(Refutation::Collision(left, right));
    }
    let text = &first.text;
    let other = &second.text;
    if *own.run_id() == *first.header.run_id() {
        return forged(alloc, general, other.text, &other.signature);
    }
    forged(alloc, general, text.text, &text.signature)
}
