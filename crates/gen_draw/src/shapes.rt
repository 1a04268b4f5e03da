//! The shapes of a picture, and its beginning.
ghost use Rattle.std.specs.Prelude.{◌≡◌, ◌++◌, OnOk, string_bytes};
ghost use Rattle.gen_draw.specs.Shapes.{opening_of, words_at};

use std::alloc::AllocError;

/// Appends the beginning of a picture of this width and height, in pixels.
#[tactic(auto, unfolding(crate::specs::Shapes::opening_of))]
pub fn push_opening(out: &mut String, width: u32, height: u32) -> Result<(), AllocError>
    ensures { OnOk result
        (string_bytes out.new ≡ string_bytes out.old ++ opening_of width height) }
{
    write!(
        out,
        "<svg xmlns=\"http://www.w3.org/2000/svg\" width=\"{width}\" height=\"{height}\" viewBox=\"0 0 {width} {height}\">\n"
    )
}

/// Appends the beginning of words that stand at a place.
#[tactic(auto, unfolding(crate::specs::Shapes::words_at))]
pub fn push_words(out: &mut String, x: u32, y: u32) -> Result<(), AllocError>
    ensures { OnOk result (string_bytes out.new ≡ string_bytes out.old ++ words_at x y) }
{
    write!(out, "<text x=\"{x}\" y=\"{y}\">")
}
