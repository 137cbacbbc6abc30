// What is asked of a run, and the settings once they are checked. What they mean is in specs/.
#![tactic(auto)]

// A plain gain, or a gain with a noise variance.
#[derive(Clone, Copy)]
pub enum Scaling {
    Plain(f32),
    Noise(f32, f32),
}

// What is asked of a run, as it is given, any numbers: the scaling, the precisions in bits, the offsets, the limit, and L and W: from
// iteration `lift_from` on a saturated check message counts as magnitude `lift_to`.
#[derive(Clone, Copy)]
pub struct Parameters {
    pub scaling: Scaling,
    pub channel: u32,
    pub message: u32,
    pub phi_s: u32,
    pub phi_a: u32,
    pub phi_0: u32,
    pub limit: u32,
    pub lift_from: u32,
    pub lift_to: u32,
}

// The same once it is checked, with the factor of the scaling.
#[derive(Clone, Copy)]
pub struct Settings {
    pub factor: f32,
    pub channel: u8,
    pub message: u8,
    pub phi_s: u8,
    pub phi_a: u8,
    pub phi_0: u8,
    pub limit: u8,
    pub lift_from: u16,
    pub lift_to: u8,
}
