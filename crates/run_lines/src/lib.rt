// The settings lines of a run text, and patterns in hexadecimal digits.
#![tactic(auto)]

ghost use Rattle.std.specs.Prelude.{◌≡◌, ◌*◌, ◌≤◌, length};
ghost use Rattle.program_texts.specs.RunText.Texts.{hex_digits, pattern, setting, settings, scaling, titles, settings_line};
ghost use Rattle.run_lines.specs.Places.{ReadAt, ThreeAt, HexDigit};

use settings::{Parameters, Scaling};
use texts::Parsed;

// The value of a lowercase hexadecimal digit.
#[tactic(auto, unfolding(program_texts::specs::RunText::Texts::hex_digit))]
fn hex_digit(b: u8) -> Option<u32>
    ensures { HexDigit b result }
{
    match b {
        b'0'..=b'9' => Some(u32::from(b - b'0')),
        b'a'..=b'f' => Some(u32::from(b - b'a') + 10),
        _ => None,
    }
}

// Eight hexadecimal digits at a place.
fn hex_digits_at(s: &[u8], at: usize) -> Option<Parsed<u32>>
    requires { at ≤ length s.now }
    ensures { ReadAt (hex_digits 8 0) s.now at result }
{
    let mut value = 0;
    for k in 0..8 {
        let &b = s.get(at + k)?;
        value = value * 16 + hex_digit(b)?;
    }
    Some(Parsed {
        value,
        next: at + 8,
    })
}

// A bit pattern at a place, with the byte x after it.
#[tactic(auto, unfolding(program_texts::specs::RunText::Texts::pattern))]
pub fn pattern_at(s: &[u8], at: usize, x: u8) -> Option<Parsed<u32>>
    requires { at ≤ length s.now }
    ensures { ReadAt (pattern x) s.now at result }
{
    let digits = hex_digits_at(s, at)?;
    let next = lines::byte_at(s, digits.next, x)?;
    Some(Parsed { next, ..digits })
}

// A decimal number of at most five digits at a place, with the byte x after it.
#[tactic(auto, unfolding(program_texts::specs::RunText::Texts::setting))]
fn setting_at(s: &[u8], at: usize, x: u8) -> Option<Parsed<u32>>
    ensures { ReadAt (setting x) s.now at result }
{
    let Parsed { value, next } = lines::field_at(s, at, x)?;
    if 99999 < value {
        return None;
    }
    Some(Parsed {
        value: value as u32,
        next,
    })
}

// Three settings at a place, with the byte x after the last.
#[tactic(auto, unfolding(program_texts::specs::RunText::Texts::settings))]
fn settings_at(s: &[u8], at: usize, x: u8) -> Option<Parsed<(u32, u32, u32)>>
    ensures { ThreeAt (settings x) s.now at result }
{
    let first = setting_at(s, at, b' ')?;
    let second = setting_at(s, first.next, b' ')?;
    let third = setting_at(s, second.next, x)?;
    Some(Parsed {
        value: (first.value, second.value, third.value),
        next: third.next,
    })
}

// The gain, and the variance where there is one.
#[tactic(auto, unfolding(program_texts::specs::RunText::Texts::scaling))]
fn scaling_at(s: &[u8], at: usize, noise: bool) -> Option<Parsed<Scaling>>
    requires { at ≤ length s.now }
    ensures { ReadAt (scaling noise) s.now at result }
{
    let gain = pattern_at(s, at, b' ')?;
    if !noise {
        return Some(Parsed {
            value: Scaling::Plain(words::float_of(gain.value)),
            next: gain.next,
        });
    }
    let variance = pattern_at(s, gain.next, b' ')?;
    Some(Parsed {
        value: Scaling::Noise(words::float_of(gain.value), words::float_of(variance.value)),
        next: variance.next,
    })
}

// Line 1: whether there is a variance.
#[tactic(auto, unfolding(program_texts::specs::RunText::Texts::titles))]
pub fn titles_at(s: &[u8]) -> Option<Parsed<bool>>
    ensures { ReadAt titles s.now 0 result }
{
    let plain = lines::fixed_at(b"gain channel message phi_s phi_a phi_0 limit\n", s, 0);
    if let Some(next) = plain {
        return Some(Parsed { value: false, next });
    }
    let next = lines::fixed_at(
        b"gain variance channel message phi_s phi_a phi_0 limit\n",
        s,
        0,
    )?;
    Some(Parsed { value: true, next })
}

// Line 2: the settings.
#[tactic(auto, unfolding(program_texts::specs::RunText::Texts::settings_line))]
pub fn settings_line_at(s: &[u8], at: usize, noise: bool) -> Option<Parsed<Parameters>>
    requires { at ≤ length s.now }
    ensures { ReadAt (settings_line noise) s.now at result }
{
    let scaling = scaling_at(s, at, noise)?;
    let first = settings_at(s, scaling.next, b' ')?;
    let (channel, message, phi_s) = first.value;
    let second = settings_at(s, first.next, b'\n')?;
    let (phi_a, phi_0, limit) = second.value;
    Some(Parsed {
        value: Parameters {
            scaling: scaling.value,
            channel,
            message,
            phi_s,
            phi_a,
            phi_0,
            limit,
            lift_from: channel::NEVER,
            lift_to: channel::LARGEST_LIFT,
        },
        next: second.next,
    })
}
