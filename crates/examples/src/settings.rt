//! Default settings of a device: std's `Default` of the integers, of a struct, of an enum and of a pair.

ghost use Rattle.std.specs.Prelude.{◌≡◌, pos, None, IfSome};

use arbitrary_int::prelude::*;

/// How the device samples.
#[derive(Clone, Copy, Debug, Default, PartialEq, Eq)]
pub enum Mode {
    /// Not at all.
    #[default]
    Off,
    /// Once in this many ticks.
    Every(u12),
}

/// What the device is set to.
#[derive(Clone, Copy, Debug, Default, PartialEq, Eq)]
pub struct Settings {
    /// The gain, in steps of half a decibel.
    pub gain: u7,
    /// What is added to each sample.
    pub offset: i12,
    /// How it samples.
    pub mode: Mode,
}

/// The settings of a device that nobody has set.
pub fn unset() -> Settings
    ensures gain { result.gain ≡ pos 0 }
    ensures offset { result.offset ≡ pos 0 }
    ensures mode { result.mode ≡ Mode.Off }
{
    Settings::default()
}

/// The settings that were read, or those of a device that nobody has set.
pub fn read_or_unset(read: Option<Settings>) -> Settings
    ensures unset { read ≡ None → result.gain ≡ pos 0 }
    ensures read { IfSome read (λ settings. result ≡ settings) }
{
    match read {
        Some(settings) => settings,
        None => Settings::default(),
    }
}

/// Takes the offset, and leaves none.
pub fn take_offset(settings: &mut Settings) -> i12
    ensures taken { result ≡ settings.old.offset }
    ensures left { settings.new.offset ≡ pos 0 }
    ensures gain { settings.new.gain ≡ settings.old.gain }
{
    std::mem::take(&mut settings.offset)
}

/// The gain and the offset before any is given.
pub fn neutral() -> (u7, i12)
    ensures gain { result.0 ≡ pos 0 }
    ensures offset { result.1 ≡ pos 0 }
{
    Default::default()
}
