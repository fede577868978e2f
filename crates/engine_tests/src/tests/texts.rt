//! Problems that several tests share.

/// Seven items and six options, of which 3, 4 and 0 are the one exact cover.
pub const LETTERS: &str = "a b c d e f g\nc e\na d g\nb c f\na d f\nb g\nd e g\n";

/// The same without the last but one, so that there is no cover.
pub const NO_COVER: &str = "a b c d e f g\nc e\na d g\nb c f\na d f\nd e g\n";
