// The settings of a session as C has them.
ghost use Rattle.std.specs.Prelude.{◌≡◌, ◌≤◌, IfOk, IsTrue};
ghost use Rattle.std.specs.List.{list_all};
ghost use Rattle.std.specs.Result.{result_err};
ghost use Rattle.tetra_scramble.specs.Colour.{IsColour};
ghost use Rattle.tetra_settings.specs.Validity.{IsValid};
ghost use Rattle.tetra_c.specs.Colours.{colour_of};
ghost use Rattle.tetra_c.specs.Settings.{has_mode, has_modes, mode_of, direction_of, settings_fault, settings_of};

use crate::colour::{TetraColour, checked_colour};
use crate::fault::Fault;
use tetra_rm::own_rows;
use tetra_scramble::Colour;
use tetra_settings::{Dir, Form, Mode, Settings, Span};

/// What a sender and a receiver are told.
#[repr(C)]
#[derive(Clone, Copy, PartialEq, Eq, Debug)]
pub struct TetraSettings {
    pub colour: TetraColour,
    /// 0 for the downlink, 1 for the uplink.
    pub direction: u8,
    /// What timeslots 1 to 4 carry: 0 signalling, 1 control bursts (on the uplink alone), 2 TCH/7.2, 3 to 5 TCH/4.8 over
    /// 1, 4 or 8 slots, 6 to 8 TCH/2.4 over 1, 4 or 8 slots, 9 speech.
    pub modes: [u8; 4],
    /// The place of slot 0 in the cycle of 4,320 slots, from 0 to 4,319.
    pub at: u16,
}

/// Whether a direction has the mode of this number.
fn has_mode(direction: u8, mode: u8) -> bool
    ensures { result ≡ has_mode direction mode }
{
    mode < 10 && !(direction == 0 && mode == 1)
}

/// Whether a direction has the mode of each timeslot.
fn are_modes(direction: u8, modes: &[u8; 4]) -> bool
    ensures { result ≡ list_all (has_mode direction) modes.now }
{
    modes.iter().all(|mode| has_mode(direction, *mode))
}

/// Whether the direction is one, and has the mode of each timeslot.
fn has_modes(settings: &TetraSettings) -> bool
    ensures { result ≡ has_modes settings.now }
{
    settings.direction < 2 && are_modes(settings.direction, &settings.modes)
}

/// The mode of a number below 10.
fn mode(number: u8) -> Mode
    ensures { result ≡ mode_of number }
{
    match number {
        1 => Mode::Cb,
        2 => Mode::D72,
        3 => Mode::D48(Span::One),
        4 => Mode::D48(Span::Four),
        5 => Mode::D48(Span::Eight),
        6 => Mode::D24(Span::One),
        7 => Mode::D24(Span::Four),
        8 => Mode::D24(Span::Eight),
        9 => Mode::Speech,
        _ => Mode::Sig,
    }
}

/// The direction of a number below 2.
fn direction(number: u8) -> Dir
    ensures { result ≡ direction_of number }
{
    if number == 0 { Dir::Dl } else { Dir::Ul }
}

/// The settings, all in range, with this colour, which is theirs.
#[tactic(auto, unfolding(crate::specs::Settings::settings_of))]
fn settings_of(settings: &TetraSettings, colour: Colour) -> Settings
    requires same { colour ≡ colour_of settings.now.colour }
    requires colour { IsColour colour }
    requires modes { IsTrue (has_modes settings.now) }
    requires place { settings.now.at ≤ 4319 }
    ensures value { result ≡ settings_of settings.now }
    ensures valid { IsValid result }
{
    Settings {
        dir: direction(settings.direction),
        colour,
        modes: [
            mode(settings.modes[0]),
            mode(settings.modes[1]),
            mode(settings.modes[2]),
            mode(settings.modes[3]),
        ],
        at: settings.at,
        max: 1,
        form: Form::Plain,
        draw: 0,
        slots: 1,
        damage: 0,
        rows: own_rows(),
    }
}

/// The settings, where they are in range.
#[tactic(auto, unfolding(crate::specs::Settings::settings_fault))]
pub fn checked_settings(settings: &TetraSettings) -> Result<Settings, Fault>
    ensures fault { result_err result ≡ settings_fault settings.now }
    ensures value { IfOk result (λ found. found ≡ settings_of settings.now) }
    ensures valid { IfOk result IsValid }
{
    let Some(colour) = checked_colour(&settings.colour) else {
        return Err(Fault::Colour);
    };
    if !has_modes(settings) {
        return Err(Fault::Mode);
    }
    if settings.at > 4319 {
        return Err(Fault::Place);
    }
    Ok(settings_of(settings, colour))
}
