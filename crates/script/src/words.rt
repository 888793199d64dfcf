// The words of a text, and the numbers that they write.
ghost use Rattle.std.specs.Prelude.{◌≡◌, ◌≤◌, length, IfSome};
ghost use Rattle.std.specs.Iterator.{YieldsFirst, item_count};
ghost use Rattle.std.specs.List.{slice_get, prefix_len, position_or_len};
ghost use Rattle.script.specs.Words.{is_blank, words, words_left, spelled, Word, decimal_of};

const MAX_NUMBER: u64 = 0xffff_ffff;

// A part of a text, from `start` to before `end`. Its ends and no slice: a name is cut out of the line as text, which bytes need not be.
#[derive(Clone, Copy)]
pub struct Span {
    pub start: usize,
    pub end: usize,
}

fn is_blank(byte: u8) -> bool
    ensures { result ≡ is_blank byte }
{
    byte == b' ' || byte == b'\t' || byte == b'\r'
}

// How many blanks stand at the start. Beside `word_length`, as the two tests have two words of std in their contracts.
fn blank_count(bytes: &[u8]) -> usize
    ensures count { result ≡ prefix_len is_blank bytes.now }
    ensures bound { result ≤ length bytes.now }
{
    bytes.iter().take_while(|byte| is_blank(**byte)).count()
}

// How many bytes stand before the first blank.
fn word_length(bytes: &[u8]) -> usize
    ensures count { result ≡ position_or_len is_blank bytes.now }
    ensures bound { result ≤ length bytes.now }
{
    bytes.iter().take_while(|byte| !is_blank(**byte)).count()
}

// The words of a text, from a position on.
#[derive(Drop)]
pub(crate) struct Words<'a> {
    text: &'a [u8],
    at: usize,
}

impl<'a> Words<'a> {
    pub(crate) fn of(text: &'a [u8]) -> Words<'a>
        ensures { words_left result ≡ words text.now }
    {
        Words { text, at: 0 }
    }
}

impl<'a> Iterator for Words<'a> {
    type Item = Span;

    ghost next_gives = { YieldsFirst words_left };

    ghost remaining = { item_count words_left };

    fn next(&mut self) -> Option<Span> {
        let rest = self.text.get(self.at..)?;
        let start = self.at + blank_count(rest);
        let end = start + word_length(&self.text[start..]);
        self.at = end;
        if start < end {
            Some(Span { start, end })
        } else {
            None
        }
    }
}

// Word `index` of a text, counted from 0.
pub fn word_at(text: &[u8], index: usize) -> Option<Span>
    ensures place { result ≡ slice_get (words text.now) index }
    ensures word { IfSome result (Word text.now) }
{
    Words::of(text).nth(index)
}

// The bytes of a word.
pub(crate) fn bytes_of(text: &[u8], span: Span) -> &[u8]
    requires { Word text.now span }
    ensures { result.now ≡ spelled text.now span }
{
    let Span { start, end } = span;
    &text[start..end]
}

// The 32-bit number that a word writes in decimal.
pub fn decimal(word: &[u8]) -> Option<u32>
    ensures { result ≡ decimal_of word.now }
{
    // a loop and no `str::parse`, which takes a plus sign too and wants text, while a line is bytes
    let mut value: u64 = 0;
    for byte in word {
        if !byte.is_ascii_digit() {
            return None;
        }
        value = value * 10 + u64::from(*byte - b'0');
        if value > MAX_NUMBER {
            return None;
        }
    }
    if word.is_empty() {
        None
    } else {
        Some(value as u32)
    }
}
