// The levels of channel values, the check of the values, and which frames are blank.
#![tactic(auto)]

ghost use Rattle.std.specs.Prelude.{◌≡◌, cond, not, ℕ, ◌<◌, ◌≤◌, min, eqb};
ghost use Rattle.std.specs.Float.{binary32};
ghost use Rattle.std.specs.Float.Ieee.{of_bits};
ghost use Rattle.std.specs.Float.Ieee.Scale.{finite};
ghost use Rattle.rules.specs.Levels.{byte};
ghost use Rattle.settings.specs.Quantiser.{sign_bit, size, wholes_below, level_for};
ghost use Rattle.settings.specs.Values.{values_judged, blank_values, quantised};

use refusals::Refusal;

// Whether the sign bit of y is set. (The NaN has none.)
fn is_minus(y: f32) -> bool
    ensures { result ≡ sign_bit y }
{
    !y.is_nan() && y.is_sign_negative()
}

// |y|, by its bits: with the library's `abs`, `quantise` takes a tenth longer.
fn size_of(y: f32) -> f32
    ensures { result ≡ size y }
{
    if y.is_nan() {
        return y;
    }
    f32::from_bits(y.to_bits() % 0x8000_0000)
}

// What the sign of y adds to its level's byte.
fn sign_of(y: f32) -> u8
    ensures { result ≡ cond (sign_bit y) 128 0 }
{
    if is_minus(y) { 128 } else { 0 }
}

// How many of 1 to most lie strictly below p.
fn wholes_below(p: f32, most: u8) -> u8
    requires { most < 128 }
    ensures { (result ≡ wholes_below most p) × (result ≤ most) }
{
    let mut n = 0;
    for k in 0..most {
        n += (((k + 1) as f32) < p) as u8;
    }
    n
}

// The byte of the level of a channel value, of magnitudes up to `most`; a byte holds no more than 127.
pub fn level(factor: f32, y: f32, most: u8) -> u8
    ensures { result ≡ byte (level_for (min most 127) factor y) }
{
    wholes_below(factor * size_of(y), most.min(127)) + sign_of(y)
}

// Whether a bit pattern is that of a finite f32: the library's `is_finite`, of the f32, takes more than twice as long here.
fn is_finite(bits: u32) -> bool
    ensures { result ≡ finite (of_bits binary32 bits) }
{
    bits % 0x8000_0000 < 0x7f80_0000
}

// Whether all values are finite, or the first that is not.
pub fn check_values(values: &[u8]) -> Result<(), Refusal>
    ensures { result ≡ values_judged values.now }
{
    for v in 0..values.len() / 4 {
        if !is_finite(words::pattern(values, v)) {
            return Err(Refusal::Value(v));
        }
    }
    Ok(())
}

// Whether the magnitude of y is above 0: its product lies above the first threshold.
fn is_exposed(factor: f32, y: f32) -> bool
    ensures { (N : ℕ) → 1 ≤ N → N < 128 → result ≡ not (eqb (level_for N factor y).magnitude 0) }
{
    1.0 < factor * size_of(y)
}

// Whether all magnitudes are 0, by every precision alike: looks for the first that is above.
pub fn is_blank(values: &[u8], factor: f32) -> bool
    ensures { (N : ℕ) → 1 ≤ N → N < 128 → result ≡ blank_values N factor values.now }
{
    for v in 0..values.len() / 4 {
        if is_exposed(factor, words::value(values, v)) {
            return false;
        }
    }
    true
}

// Makes each level the byte of its value's level, as far as both lists go.
pub fn quantise(values: &[u8], factor: f32, most: u8, levels: &mut [u8])
    ensures { levels.new ≡ quantised (min most 127) factor values.now levels.old }
{
    let n = levels.len().min(values.len() / 4);
    for v in 0..n {
        levels[v] = level(factor, words::value(values, v), most);
    }
}
