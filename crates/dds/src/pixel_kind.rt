// What plain pixels hold.

/// What plain pixels hold, as the pixel flags tell it.
#[derive(Clone, Copy, PartialEq, Eq, Debug)]
pub enum PixelKind {
    /// Colour, and an alpha channel besides.
    Rgba,
    /// Colour.
    Rgb,
    /// Luminance, and an alpha channel besides.
    LuminanceWithAlpha,
    /// Luminance.
    Luminance,
    /// Luma and chroma.
    Yuv,
    /// Alpha only.
    Alpha,
}
