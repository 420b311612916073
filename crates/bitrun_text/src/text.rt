//! Reads the lines and the words of a text in one pass.

ghost use Rattle.std.specs.Prelude.{◌≡◌, ◌==◌, [], ◌∷◌, drop, length, position, MatchOption, if◌then◌else◌};
ghost use Rattle.std.specs.List.{position_or_len, before_first, after_first};
ghost use Rattle.bitrun_text.specs.Text.{ends_line, is_blank, is_solid, ends_word, word_lines, Left, left_of};

use std::marker::Model;

/// A place on a line of a text. A caller sees the words that are left on the line, and those of
/// each later line.
#[derive(Drop)]
pub struct Cursor<'a> {
    rest: &'a [u8],
}

impl<'a> Model for Cursor<'a> {
    ghost Value = { Left };

    ghost view = { λ cursor. left_of cursor.rest.now };
}

impl<'a> Cursor<'a> {
    /// The beginning of the first line, if there is one.
    pub fn new(text: &'a [u8]) -> Option<Self>
        ensures { MatchOption result (word_lines text.now ≡ [])
            (λ cursor. word_lines text.now ≡ cursor.words ∷ cursor.later) }
    {
        if text.is_empty() {
            None
        } else {
            Some(Cursor { rest: text })
        }
    }

    /// Takes the next word of the line, if there is one.
    pub fn next_word(&mut self) -> Option<&'a [u8]>
        ensures word { MatchOption result ((self.old.words ≡ []) × (self.new.words ≡ []))
            (λ word. self.old.words ≡ word.now ∷ self.new.words) }
        ensures later { self.new.later ≡ self.old.later }
    {
        let (word, rest) = split_word(without_blanks(self.rest));
        self.rest = rest;
        if word.is_empty() { None } else { Some(word) }
    }

    /// Whether no words are left on the line.
    pub fn is_at_end(&self) -> bool
        ensures { result ≡ (length self.now.words == 0) }
    {
        let (word, _) = split_word(without_blanks(self.rest));
        word.is_empty()
    }

    /// Another cursor at the same place.
    pub fn copy(&self) -> Cursor<'a>
        ensures { result ≡ self.now }
    {
        Cursor { rest: self.rest }
    }

    /// The text from this place on.
    pub fn text(&self) -> &'a [u8]
        ensures { left_of result.now ≡ self.now }
    {
        self.rest
    }

    /// Goes on to the beginning of the text.
    pub fn go_to(&mut self, text: &'a [u8])
        ensures { self.new ≡ left_of text.now }
    {
        self.rest = text;
    }

    /// Goes on to the next line, whatever is left on this one, and returns whether there is one.
    pub fn next_line(&mut self) -> bool
        ensures { self.old.later ≡ (if result then self.new.words ∷ self.new.later else []) }
    {
        self.rest = after_line(self.rest);
        !self.rest.is_empty()
    }
}

/// What follows the blanks at the beginning of the text.
#[tactic(auto, using(crate::proofs::Lines::places))]
fn without_blanks(text: &[u8]) -> &[u8]
    ensures { result.now ≡ drop (position_or_len is_solid text.now) text.now }
{
    let (_, rest) = text.split_at(word_start(text).unwrap_or(text.len()));
    rest
}

/// The word at the beginning of the text, which may be empty, and what follows it.
#[tactic(auto, using(crate::proofs::Lines::places))]
fn split_word(text: &[u8]) -> (&[u8], &[u8])
    ensures word { result.0.now ≡ before_first ends_word text.now }
    ensures rest { result.1.now ≡ drop (position_or_len ends_word text.now) text.now }
{
    text.split_at(word_end(text).unwrap_or(text.len()))
}

/// What follows the first line.
#[tactic(auto, using(crate::proofs::Lines::places))]
pub fn after_line(text: &[u8]) -> &[u8]
    ensures { result.now ≡ after_first ends_line text.now }
{
    let (_, rest) = text.split_at(line_end(text).unwrap_or(text.len()));
    match rest {
        [_, after @ ..] => after,
        [] => b"",
    }
}

/// The place of the first byte that is not a blank.
fn word_start(text: &[u8]) -> Option<usize>
    ensures { result ≡ position is_solid text.now }
{
    text.iter().position(|byte| !is_blank(*byte))
}

/// The place of the first blank or LF.
fn word_end(text: &[u8]) -> Option<usize>
    ensures { result ≡ position ends_word text.now }
{
    text.iter().position(|byte| ends_word(*byte))
}

/// The place of the first LF.
fn line_end(text: &[u8]) -> Option<usize>
    ensures { result ≡ position ends_line text.now }
{
    text.iter().position(|byte| *byte == b'\n')
}

/// Whether the byte is a blank: a space, a tab or a CR.
pub fn is_blank(byte: u8) -> bool
    ensures { result ≡ is_blank byte }
{
    matches!(byte, b' ' | b'\t' | b'\r')
}

fn ends_word(byte: u8) -> bool
    ensures { result ≡ ends_word byte }
{
    // One comparison decides most bytes.
    if byte > b' ' {
        return false;
    }
    byte == b'\n' || is_blank(byte)
}
