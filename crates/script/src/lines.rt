// What a line of a script says.
ghost use Rattle.std.specs.Prelude.{◌≡◌, ◌==◌, drop, position};
ghost use Rattle.std.specs.List.{slice_get};
ghost use Rattle.std.specs.Option.{option_map};
ghost use Rattle.script.specs.Words.{words, spelled};
ghost use Rattle.script.specs.Lines.{text_of, number_at, kind_at, stage_bits, stages_from, entry_of, layout_of, line_of};

use crate::names::{kind_named, spells, stage_named};
use crate::words::{Span, Words, bytes_of, decimal, word_at};
use conversion::entries::LayoutEntry;
use conversion::kinds::EntryKind;
use std::error::Error;
use std::fmt;

#[derive(Clone, Copy)]
pub enum Line {
    Blank,
    // The name is a part of the line.
    Layout { name: Span, partially_bound: bool },
    Entry(LayoutEntry),
}

// What a word should have been.
#[derive(Clone, Copy, Debug, PartialEq, Eq)]
pub enum Expected {
    Statement,
    Name,
    PartiallyBound,
    LineEnd,
    Binding,
    Kind,
    ArraySize,
    Stage,
}

impl fmt::Display for Expected {
    fn fmt<W: fmt::Write>(&self, f: &mut fmt::Formatter<W>) -> fmt::Result {
        f.write_str(match self {
            Expected::Statement => "`layout` or `entry`",
            Expected::Name => "the layout's name",
            Expected::PartiallyBound => "`partially-bound` or the end of the line",
            Expected::LineEnd => "the end of the line",
            Expected::Binding => "a binding, a number from 0 to 4294967295",
            Expected::Kind =>
                "a kind: sampler, sampled-image, storage-image, uniform-buffer, uniform-buffer-dynamic, storage-buffer, storage-buffer-dynamic, acceleration-structure or external-texture",
            Expected::ArraySize => "an array size, a number from 0 to 4294967295",
            Expected::Stage =>
                "a stage: vertex, fragment, compute, task, mesh, ray-generation, miss, any-hit or closest-hit, or stage bits as a number",
        })
    }
}

// The first word that can't be read, counted from 0.
#[derive(Clone, Copy, Debug, PartialEq, Eq)]
pub struct Unreadable {
    pub word: usize,
    pub expected: Expected,
}

impl Unreadable {
    ghost use Rattle.script.specs.Lines.{unreadable_at};

    fn at(word: usize, expected: Expected) -> Unreadable
        ensures { result ≡ unreadable_at word expected }
    {
        Unreadable { word, expected }
    }
}

// Words are counted from 1 here.
impl fmt::Display for Unreadable {
    fn fmt<W: fmt::Write>(&self, f: &mut fmt::Formatter<W>) -> fmt::Result {
        let word = self.word.saturating_add(1);
        write!(f, "word {word}: expected {}", self.expected)
    }
}

impl Error for Unreadable {}

// What begins a comment.
const COMMENT: u8 = b'#';

fn comment_start(line: &[u8]) -> Option<usize>
    ensures { result ≡ position (λ c. c == COMMENT) line.now }
{
    line.iter().position(|byte| *byte == COMMENT)
}

// The text of a line ends where a comment begins.
#[tactic(auto, using(crate::proofs::Scans::up_to_first))]
fn text_of(line: &[u8]) -> &[u8]
    ensures { result.now ≡ text_of line.now }
{
    &line[..comment_start(line).unwrap_or(line.len())]
}

// The bytes of word `index`.
fn bytes_at(text: &[u8], index: usize) -> Option<&[u8]>
    ensures { option_map (λ w. w.now) result ≡ option_map (spelled text.now) (slice_get (words text.now) index) }
{
    word_at(text, index).map(|span| bytes_of(text, span))
}

// Beside `kind_at`, since a generic function over what reads the word would be longer than both.
fn number_at(text: &[u8], index: usize, expected: Expected) -> Result<u32, Unreadable>
    ensures { result ≡ number_at text.now index expected }
{
    bytes_at(text, index)
        .and_then(decimal)
        .ok_or(Unreadable::at(index, expected))
}

fn kind_at(text: &[u8], index: usize) -> Result<EntryKind, Unreadable>
    ensures { result ≡ kind_at text.now index }
{
    bytes_at(text, index)
        .and_then(kind_named)
        .ok_or(Unreadable::at(index, Expected::Kind))
}

// A stage by its name, or stage bits as a number.
fn stage_bits(word: &[u8]) -> Option<u32>
    ensures { result ≡ stage_bits word.now }
{
    stage_named(word).or_else(|| decimal(word))
}

fn read_layout(text: &[u8]) -> Result<Line, Unreadable>
    ensures { result ≡ layout_of text.now (slice_get (words text.now) 1) (slice_get (words text.now) 2) (slice_get (words text.now) 3) }
{
    let name = word_at(text, 1).ok_or(Unreadable::at(1, Expected::Name))?;
    let Some(mark) = bytes_at(text, 2) else {
        return Ok(Line::Layout {
            name,
            partially_bound: false,
        });
    };
    if !spells(mark, b"partially-bound") {
        return Err(Unreadable::at(2, Expected::PartiallyBound));
    }
    match word_at(text, 3) {
        Some(_) => Err(Unreadable::at(3, Expected::LineEnd)),
        None => Ok(Line::Layout {
            name,
            partially_bound: true,
        }),
    }
}

// The stages that the words from the fifth on name.
fn read_stages(text: &[u8]) -> Result<u32, Unreadable>
    ensures { result ≡ stages_from text.now 4 0 (drop 4 (words text.now)) }
{
    let mut stages = 0;
    for (index, span) in Words::of(text).enumerate().skip(4) {
        stages |= stage_bits(bytes_of(text, span)).ok_or(Unreadable::at(index, Expected::Stage))?;
    }
    Ok(stages)
}

fn read_entry(text: &[u8]) -> Result<LayoutEntry, Unreadable>
    ensures { result ≡ entry_of text.now }
{
    let binding = number_at(text, 1, Expected::Binding)?;
    let kind = kind_at(text, 2)?;
    let array = number_at(text, 3, Expected::ArraySize)?;
    let stages = read_stages(text)?;
    Ok(LayoutEntry {
        binding,
        kind,
        array,
        stages,
    })
}

// What a line says, or the first word that can't be read.
pub fn read_line(line: &[u8]) -> Result<Line, Unreadable>
    ensures { result ≡ line_of line.now }
{
    let text = text_of(line);
    let Some(word) = bytes_at(text, 0) else {
        return Ok(Line::Blank);
    };
    if spells(word, b"layout") {
        return read_layout(text);
    }
    if spells(word, b"entry") {
        return read_entry(text).map(Line::Entry);
    }
    Err(Unreadable::at(0, Expected::Statement))
}
