// The check of what is asked of a run, and the factor of its scaling.
#![tactic(auto)]

ghost use Rattle.std.specs.Prelude.{◌≡◌, ◌<◌, ◌≤◌};
ghost use Rattle.rules.specs.Levels.{largest};
ghost use Rattle.settings.specs.Scaling.{positive, factor_of, scaling_admitted};
ghost use Rattle.settings.specs.Settings.{precisions_admitted, options_admitted, lifting_admitted, settings_of};

use refusals::Refusal;
use settings::{Parameters, Scaling, Settings};

// The L of a run in which nothing is lifted, and the largest W.
pub const NEVER: u32 = 256;

pub const LARGEST_LIFT: u32 = 15;

// Whether x is finite and above zero.
fn is_positive(x: f32) -> bool
    ensures { result ≡ positive x }
{
    x.is_finite() & (0.0 < x)
}

// The factor of a scaling.
pub fn factor(s: Scaling) -> f32
    ensures { result ≡ factor_of s }
{
    match s {
        Scaling::Plain(gain) => gain,
        Scaling::Noise(gain, variance) => 2.0 * gain / variance,
    }
}

// Whether the gain, and the variance where there is one, are finite and above zero.
fn scaling_admitted(s: Scaling) -> bool
    ensures { result ≡ scaling_admitted s }
{
    match s {
        Scaling::Plain(gain) => is_positive(gain),
        Scaling::Noise(gain, variance) => is_positive(gain) & is_positive(variance),
    }
}

// Whether these are precisions of a channel and its messages.
fn precisions_admitted(channel: u32, message: u32) -> bool
    ensures { result ≡ precisions_admitted channel message }
{
    matches!((channel, message), (3, 2 | 3) | (4, 3 | 4))
}

// Whether the offsets and the limit are within theirs.
fn options_admitted(p: Parameters) -> bool
    ensures { result ≡ options_admitted p }
{
    (p.phi_s <= 1) & (p.phi_a <= 1) & (p.phi_0 <= 1) & (p.limit <= 255)
}

// The largest magnitude of a precision in bits.
pub fn largest(bits: u8) -> u8
    requires { (2 ≤ bits) × (bits ≤ 4) }
    ensures { result ≡ largest bits }
{
    match bits {
        2 => 1,
        3 => 3,
        _ => 7,
    }
}

// Whether L and W are within their bounds.
fn lifting_admitted(p: Parameters) -> bool
    requires { (2 ≤ p.message) × (p.message ≤ 4) }
    ensures { result ≡ lifting_admitted p }
{
    let most = largest(p.message as u8) as u32;
    (1 <= p.lift_from) & (p.lift_from <= NEVER) & (most < p.lift_to) & (p.lift_to <= LARGEST_LIFT)
}

// The settings, or why they are turned down.
#[tactic(auto, using(settings::proofs::Factors::factor_positive), unfolding(settings::specs::Settings::settings_of))]
pub fn check_settings(p: Parameters) -> Result<Settings, Refusal>
    ensures { result ≡ settings_of p }
{
    if !precisions_admitted(p.channel, p.message) {
        return Err(Refusal::Precision);
    }
    if !options_admitted(p) {
        return Err(Refusal::Option);
    }
    if !lifting_admitted(p) {
        return Err(Refusal::Lifting);
    }
    let scaling = p.scaling;
    if !scaling_admitted(scaling) {
        return Err(Refusal::Scaling);
    }
    let f = factor(scaling);
    if !is_positive(f) {
        return Err(Refusal::Factor);
    }
    Ok(Settings {
        factor: f,
        channel: p.channel as u8,
        message: p.message as u8,
        phi_s: p.phi_s as u8,
        phi_a: p.phi_a as u8,
        phi_0: p.phi_0 as u8,
        limit: p.limit as u8,
        lift_from: p.lift_from as u16,
        lift_to: p.lift_to as u8,
    })
}
