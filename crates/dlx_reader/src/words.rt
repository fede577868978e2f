//! The words of a line, cut off one by one: no list of them is made.

ghost use Rattle.std.specs.Prelude.{◌≡◌, ◌<◌, ◌==◌, [], ◌∷◌, length, not, position, is_some, IfNone, IfSome};
ghost use Rattle.dlx_reader.specs.Content.{begins_with_bar, is_content};
ghost use Rattle.dlx_reader.specs.Lines.{is_white, words_of};
ghost use Rattle.dlx_reader.specs.Occurrences.{bytes_in, colour_part, has_colon, item_part};

/// Whether a byte is white space within a line.
fn is_white(byte: u8) -> bool
    ensures { result ≡ is_white byte }
{
    // (byte 10 is missing since it ends a line: none is left within one)
    matches!(byte, 9 | 11 | 12 | 13 | 32)
}

/// Where the first word of a line begins, if it has one.
fn word_start(line: &[u8]) -> Option<usize>
    ensures place { result ≡ position (λ byte. not (is_white byte)) line.now }
    ensures within { IfSome result (λ start. start < length line.now) }
{
    line.iter().position(|byte| !is_white(*byte))
}

/// Where the first white space stands, if there is some.
fn word_end(word: &[u8]) -> Option<usize>
    ensures place { result ≡ position is_white word.now }
    ensures within { IfSome result (λ end. end < length word.now) }
{
    word.iter().position(|byte| is_white(*byte))
}

/// The first word of a line, and what stands behind it; nothing where the line has no word.
pub fn split_word(line: &[u8]) -> Option<(&[u8], &[u8])>
    ensures none { IfNone result (words_of line.now ≡ []) }
    ensures some { IfSome result (λ parts. words_of line.now ≡ parts.0.now ∷ words_of parts.1.now) }
    ensures shorter { IfSome result (λ parts. length parts.1.now < length line.now) }
{
    let word = &line[word_start(line)?..];
    match word_end(word) {
        None => Some((word, &[])),
        Some(end) => Some(word.split_at(end)),
    }
}

/// Where the first colon of a word stands, if it has one.
fn colon_place(word: &[u8]) -> Option<usize>
    ensures place { result ≡ position (λ byte. byte == 58) word.now }
    ensures within { IfSome result (λ place. place < length word.now) }
{
    word.iter().position(|byte| *byte == b':')
}

/// What stands before the first colon of an option's word, and what stands behind it, if there is one.
pub fn split_colour(word: &[u8]) -> (&[u8], Option<&[u8]>)
    ensures item { result.0.now ≡ item_part word.now }
    ensures colour { bytes_in result.1 ≡ colour_part word.now }
    ensures colon { is_some result.1 ≡ has_colon word.now }
{
    match colon_place(word) {
        None => (word, None),
        Some(place) => (&word[..place], Some(&word[place + 1..])),
    }
}

/// The name of the colour that an option's word has; nothing where it has none.
pub fn colour_part(word: &[u8]) -> &[u8]
    ensures { result.now ≡ colour_part word.now }
{
    match split_colour(word) {
        (_, None) => &[],
        (_, Some(colour)) => colour,
    }
}

/// Whether a word begins with the bar.
pub fn begins_with_bar(word: &[u8]) -> bool
    ensures { result ≡ begins_with_bar word.now }
{
    matches!(word, [b'|', ..])
}

/// Whether a line says something: it is neither blank nor a comment. No more than its first word is looked at.
pub fn is_content(line: &[u8]) -> bool
    ensures { result ≡ is_content (words_of line.now) }
{
    match split_word(line) {
        None => false,
        Some((word, _)) => !begins_with_bar(word),
    }
}

/// Whether a line has a word. No more than the first is looked at.
pub fn has_words(line: &[u8]) -> bool
    ensures { result ≡ not (length (words_of line.now) == 0) }
{
    split_word(line).is_some()
}
