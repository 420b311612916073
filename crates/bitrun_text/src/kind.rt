//! The first line, and the types of registers that it names.

ghost use Rattle.std.specs.Prelude.{◌≡◌};
ghost use Rattle.bitrun_text.specs.Text.{Left};
ghost use Rattle.bitrun_text.specs.Kind.{type_named, pair_named, kind_named};

use crate::text::Cursor;

/// The type of the registers.
#[derive(Clone, Copy, Debug, PartialEq, Eq)]
pub enum RegisterType {
    U1,
    I1,
    U7,
    I7,
    U14,
    I14,
    U120,
    I120,
}

/// A wide type, and then a narrow one.
#[derive(Clone, Copy, Debug, PartialEq, Eq)]
pub enum WidePair {
    U14U7,
    U14I7,
    I14U7,
    I120U14,
}

/// What the first line asks for: steps on registers of one type, or of a pair of types.
#[derive(Clone, Copy, Debug, PartialEq, Eq)]
pub enum Kind {
    Run(RegisterType),
    Wide(WidePair),
}

/// What the words of the first line name.
#[tactic(auto, unfolding(crate::specs::Kind::kind_named))]
pub fn kind_named(line: &mut Cursor) -> Option<Kind>
    ensures kind { result ≡ kind_named line.old.words }
    ensures later { line.new.later ≡ line.old.later }
{
    let first = line.next_word()?;
    if first == b"run".as_slice() {
        let name = line.next_word()?;
        if line.is_at_end() {
            type_named(name).map(Kind::Run)
        } else {
            None
        }
    } else if first == b"wide".as_slice() {
        let wide = line.next_word()?;
        let narrow = line.next_word()?;
        if line.is_at_end() {
            pair_named(wide, narrow).map(Kind::Wide)
        } else {
            None
        }
    } else {
        None
    }
}

/// The pair that two words name.
#[tactic(auto, unfolding(crate::specs::Kind::pair_named))]
fn pair_named(wide: &[u8], narrow: &[u8]) -> Option<WidePair>
    ensures { result ≡ pair_named wide.now narrow.now }
{
    if wide == b"u14".as_slice() && narrow == b"u7".as_slice() {
        Some(WidePair::U14U7)
    } else if wide == b"u14".as_slice() && narrow == b"i7".as_slice() {
        Some(WidePair::U14I7)
    } else if wide == b"i14".as_slice() && narrow == b"u7".as_slice() {
        Some(WidePair::I14U7)
    } else if wide == b"i120".as_slice() && narrow == b"u14".as_slice() {
        Some(WidePair::I120U14)
    } else {
        None
    }
}

/// The type that a word names.
#[tactic(auto, unfolding(crate::specs::Kind::type_named))]
fn type_named(word: &[u8]) -> Option<RegisterType>
    ensures { result ≡ type_named word.now }
{
    match word {
        b"u1" => Some(RegisterType::U1),
        b"i1" => Some(RegisterType::I1),
        b"u7" => Some(RegisterType::U7),
        b"i7" => Some(RegisterType::I7),
        b"u14" => Some(RegisterType::U14),
        b"i14" => Some(RegisterType::I14),
        b"u120" => Some(RegisterType::U120),
        b"i120" => Some(RegisterType::I120),
        _ => None,
    }
}
