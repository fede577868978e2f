//! The text of a cover, written through a buffer.

ghost use Rattle.std.specs.Prelude.{◌≡◌, ◌<◌, ◌≤◌, [], ◌∷◌, ◌++◌, length, All, IfOk};
ghost use Rattle.std.specs.List.{flat_map, zip};
ghost use Rattle.dlx_reader.specs.Devices.{IsWritten, IsCounted};
ghost use Rattle.dlx_reader.specs.Buffering.{IsBuffered};
ghost use Rattle.dlx_reader.specs.Writing.{colour_behind, option_text, occurrences_of, cover_text, word_text, words_after, words_text};
ghost use Rattle.cover_problem.specs.Prefix.{AreOptions};

use crate::buffer::Buffer;
use crate::devices::Sink;
use crate::writing::{WriteFault, write_bytes};
use cover_problem::Problem;

/// Writes what is in the buffer.
fn flush<W: Sink>(buffer: &mut Buffer, sink: &mut W) -> Result<(), WriteFault>
    ensures none { IfOk result (λ _. buffer.new ≡ []) }
    ensures bytes { IsWritten (W.contents sink.old) (W.contents sink.new) buffer.old result }
    ensures failed { IsCounted (W.failed sink.old) (W.failed sink.new) result }
{
    write_bytes(buffer.as_slice(), sink)?;
    buffer.clear();
    Ok(())
}

/// Buffers bytes on where none wait: they wait if there is room for them, and else they are written.
fn buffer_first<W: Sink>(bytes: &[u8], buffer: &mut Buffer, sink: &mut W) -> Result<(), WriteFault>
    requires none { buffer.old ≡ [] }
    ensures bytes { IsBuffered buffer.old buffer.new (W.contents sink.old) (W.contents sink.new)
        bytes.now result }
    ensures failed { IsCounted (W.failed sink.old) (W.failed sink.new) result }
{
    // (no piece of an answer is so long; without this case each caller would have to prove that)
    if bytes.len() > buffer.room() {
        return write_bytes(bytes, sink);
    }
    buffer.push(bytes);
    Ok(())
}

/// Buffers bytes on: they wait behind those that wait, which are written first where there is no room for more.
fn buffer_bytes<W: Sink>(bytes: &[u8], buffer: &mut Buffer, sink: &mut W) -> Result<(), WriteFault>
    ensures bytes { IsBuffered buffer.old buffer.new (W.contents sink.old) (W.contents sink.new)
        bytes.now result }
    ensures failed { IsCounted (W.failed sink.old) (W.failed sink.new) result }
{
    if bytes.len() <= buffer.room() {
        buffer.push(bytes);
        return Ok(());
    }
    flush(buffer, sink)?;
    buffer_first(bytes, buffer, sink)
}

/// Buffers on one text, and then another.
fn buffer_two<W: Sink>(
    first: &[u8],
    second: &[u8],
    buffer: &mut Buffer,
    sink: &mut W,
) -> Result<(), WriteFault>
    ensures bytes { IsBuffered buffer.old buffer.new (W.contents sink.old) (W.contents sink.new)
        (first.now ++ second.now) result }
    ensures failed { IsCounted (W.failed sink.old) (W.failed sink.new) result }
{
    buffer_bytes(first, buffer, sink)?;
    buffer_bytes(second, buffer, sink)
}

/// Buffers on a colon and the name of a colour, or nothing where it is none.
fn buffer_colour<W: Sink>(
    problem: &Problem,
    colour: u16,
    buffer: &mut Buffer,
    sink: &mut W,
) -> Result<(), WriteFault>
    requires colour { colour ≤ length problem.now.colour_names }
    ensures bytes { IsBuffered buffer.old buffer.new (W.contents sink.old) (W.contents sink.new)
        (colour_behind problem.now colour) result }
    ensures failed { IsCounted (W.failed sink.old) (W.failed sink.new) result }
{
    if colour == 0 {
        return Ok(());
    }
    buffer_two(b":", problem.colour_name(colour), buffer, sink)
}

/// Buffers on the word of an item with this colour.
fn buffer_word<W: Sink>(
    problem: &Problem,
    item: u16,
    colour: u16,
    buffer: &mut Buffer,
    sink: &mut W,
) -> Result<(), WriteFault>
    requires item { item < length problem.now.names }
    requires colour { colour ≤ length problem.now.colour_names }
    ensures bytes { IsBuffered buffer.old buffer.new (W.contents sink.old) (W.contents sink.new)
        (word_text problem.now (item, colour)) result }
    ensures failed { IsCounted (W.failed sink.old) (W.failed sink.new) result }
{
    buffer_bytes(problem.name(item), buffer, sink)?;
    buffer_colour(problem, colour, buffer, sink)
}

/// Buffers on a space and a word.
fn buffer_behind<W: Sink>(
    problem: &Problem,
    item: u16,
    colour: u16,
    buffer: &mut Buffer,
    sink: &mut W,
) -> Result<(), WriteFault>
    requires item { item < length problem.now.names }
    requires colour { colour ≤ length problem.now.colour_names }
    ensures bytes { IsBuffered buffer.old buffer.new (W.contents sink.old) (W.contents sink.new)
        (32 ∷ word_text problem.now (item, colour)) result }
    ensures failed { IsCounted (W.failed sink.old) (W.failed sink.new) result }
{
    buffer_bytes(b" ", buffer, sink)?;
    buffer_word(problem, item, colour, buffer, sink)
}

/// Buffers on each word after a space.
fn buffer_others<W: Sink>(
    problem: &Problem,
    items: &[u16],
    colours: &[u16],
    buffer: &mut Buffer,
    sink: &mut W,
) -> Result<(), WriteFault>
    requires items { All (λ i. i < length problem.now.names) items.now }
    requires colours { All (λ c. c ≤ length problem.now.colour_names) colours.now }
    requires long { length colours.now ≡ length items.now }
    ensures bytes { IsBuffered buffer.old buffer.new (W.contents sink.old) (W.contents sink.new)
        (words_after problem.now (zip items.now colours.now)) result }
    ensures failed { IsCounted (W.failed sink.old) (W.failed sink.new) result }
{
    for place in 0..items.len() {
        buffer_behind(problem, items[place], colours[place], buffer, sink)?;
    }
    Ok(())
}

/// Buffers on the words of items with their colours, with one space between.
fn buffer_words<W: Sink>(
    problem: &Problem,
    items: &[u16],
    colours: &[u16],
    buffer: &mut Buffer,
    sink: &mut W,
) -> Result<(), WriteFault>
    requires items { All (λ i. i < length problem.now.names) items.now }
    requires colours { All (λ c. c ≤ length problem.now.colour_names) colours.now }
    requires long { length colours.now ≡ length items.now }
    ensures bytes { IsBuffered buffer.old buffer.new (W.contents sink.old) (W.contents sink.new)
        (words_text problem.now (zip items.now colours.now)) result }
    ensures failed { IsCounted (W.failed sink.old) (W.failed sink.new) result }
{
    match items {
        [] => Ok(()),
        [first, others @ ..] => {
            buffer_word(problem, *first, colours[0], buffer, sink)?;
            buffer_others(problem, others, &colours[1..], buffer, sink)
        }
    }
}

/// Buffers on the line of an option.
fn buffer_option<W: Sink>(
    problem: &Problem,
    option: u16,
    buffer: &mut Buffer,
    sink: &mut W,
) -> Result<(), WriteFault>
    requires option { option < length problem.now.options }
    ensures bytes { IsBuffered buffer.old buffer.new (W.contents sink.old) (W.contents sink.new)
        (option_text problem.now option) result }
    ensures failed { IsCounted (W.failed sink.old) (W.failed sink.new) result }
{
    let (items, colours) = (problem.option(option), problem.colours(option));
    buffer_words(problem, items, colours, buffer, sink)?;
    buffer_bytes(b"\n", buffer, sink)
}

/// Buffers on the lines of the options.
fn buffer_options<W: Sink>(
    problem: &Problem,
    options: &[u16],
    buffer: &mut Buffer,
    sink: &mut W,
) -> Result<(), WriteFault>
    requires options { AreOptions problem.now options.now }
    ensures bytes { IsBuffered buffer.old buffer.new (W.contents sink.old) (W.contents sink.new)
        (flat_map (option_text problem.now) options.now) result }
    ensures failed { IsCounted (W.failed sink.old) (W.failed sink.new) result }
{
    let mut left = options;
    while let [option, others @ ..] = left {
        buffer_option(problem, *option, buffer, sink)?;
        left = others;
    }
    Ok(())
}

/// Ends the first line, and buffers those of the options.
fn buffer_line_end<W: Sink>(
    problem: &Problem,
    options: &[u16],
    buffer: &mut Buffer,
    sink: &mut W,
) -> Result<(), WriteFault>
    requires options { AreOptions problem.now options.now }
    ensures bytes { IsBuffered buffer.old buffer.new (W.contents sink.old) (W.contents sink.new)
        (10 ∷ flat_map (option_text problem.now) options.now) result }
    ensures failed { IsCounted (W.failed sink.old) (W.failed sink.new) result }
{
    buffer_bytes(b"\n", buffer, sink)?;
    buffer_options(problem, options, buffer, sink)
}

/// Buffers on how many options there are, and their lines.
pub fn buffer_cover<W: Sink>(
    problem: &Problem,
    options: &[u16],
    buffer: &mut Buffer,
    sink: &mut W,
) -> Result<(), WriteFault>
    requires options { AreOptions problem.now options.now }
    ensures bytes { IsBuffered buffer.old buffer.new (W.contents sink.old) (W.contents sink.new)
        (cover_text problem.now options.now) result }
    ensures failed { IsCounted (W.failed sink.old) (W.failed sink.new) result }
{
    let mut digits = itoa::Buffer::new();
    let count = digits.format(options.len()).as_bytes();
    buffer_two(b"cover ", count, buffer, sink)?;
    buffer_line_end(problem, options, buffer, sink)
}
