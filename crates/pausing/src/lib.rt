// A run that pauses: begun, advanced by a number of iterations, looked at and advanced again. Its record and its memory belong to the caller.
#![tactic(auto)]

ghost use Rattle.std.specs.Prelude.{◌≡◌, ◌≤◌, length};
ghost use Rattle.rules.specs.Levels.{largest};
ghost use Rattle.refusals.specs.Refusals.{unless, or_else};
ghost use Rattle.refusals.specs.declared.Refusal.TheVariants as Refusals;
ghost use Rattle.settings.specs.Theorems.{Admissible};
ghost use Rattle.words.specs.Roles.{graph_lent};
ghost use Rattle.decoding.specs.Frames.{frame_lent, memory};
ghost use Rattle.pausing.specs.Records.{is_open, admits};
ghost use Rattle.pausing.specs.Pausing.{Begins, lent, record_after, judged_of, asked_lent, scaled, within_judged, Advances};
ghost use Rattle.pausing.specs.Exact.{Accepts};

use decoding::{Frame, Room};
use refusals::Refusal;
use settings::{Parameters, Scaling, Settings};
use words::Graph;

pub mod exact; // the parts of begin and advance

// How a run stands.
#[derive(Clone, Copy)]
pub enum Standing {
    Codeword,
    Stopped,
    Open,
}

// The record of a run: how it stands, the number of its iteration, and how many checks are unsatisfied there.
#[derive(Clone, Copy)]
pub struct Run {
    pub standing: Standing,
    pub iterations: usize,
    pub unsatisfied: usize,
}

// The record that an advance hands back, and whether it was refused.
#[derive(Clone, Copy)]
pub struct Advanced {
    pub run: Run,
    pub judged: Result<(), Refusal>,
}

// What is asked of a run but its scaling, as it is given, any numbers.
#[derive(Clone, Copy)]
pub struct Unscaled {
    pub channel: u32,
    pub message: u32,
    pub phi_s: u32,
    pub phi_a: u32,
    pub phi_0: u32,
    pub limit: u32,
    pub lift_from: u32,
    pub lift_to: u32,
}

impl Unscaled {
    // The same with a scaling, which nothing reads.
    fn scaled(self) -> Parameters
        ensures { result ≡ scaled self }
    {
        Parameters {
            scaling: Scaling::Plain(1.0),
            channel: self.channel,
            message: self.message,
            phi_s: self.phi_s,
            phi_a: self.phi_a,
            phi_0: self.phi_0,
            limit: self.limit,
            lift_from: self.lift_from,
            lift_to: self.lift_to,
        }
    }
}

// Begins a run: its record, and iteration 0 in the lent memory; or the refusal, decode's, and the memory as it was. Counts the variables' degrees in
// the list lent for them.
pub fn begin(
    frame: Frame,
    degrees: &mut [u8],
    levels: &mut [u8],
    variable_messages: &mut [u8],
    check_messages: &mut [u8],
    sums: &mut [u8],
    bits: &mut [u8],
) -> Result<Run, Refusal>
    ensures { Begins (frame_lent frame.entry) (memory levels.old variable_messages.old check_messages.old sums.old bits.old) (memory levels.new variable_messages.new check_messages.new sums.new bits.new) degrees.old degrees.new result }
{
    let room = Room {
        levels: levels.len(),
        variable_messages: variable_messages.len(),
        check_messages: check_messages.len(),
        sums: sums.len(),
        bits: bits.len(),
    };
    let settings = accepting::accept(frame, degrees, room)?;
    Ok(exact::begin_within(
        settings,
        frame.graph,
        frame.values,
        levels,
        variable_messages,
        check_messages,
        sums,
        bits,
    ))
}

// Whether a list's bytes are levels of magnitudes up to `most`.
fn check_within(most: u8, list: &[u8]) -> Result<(), Refusal>
    ensures { result ≡ within_judged most list.now (length list.now) }
{
    for &byte in list {
        if most < byte % 128 {
            return Err(Refusal::Advance);
        }
    }
    Ok(())
}

// The settings of an advance, or why it is turned down before its record is looked at; counts the variables' degrees in the lent list. The factor of
// the settings is not used.
fn accept(
    graph: Graph,
    settings: Unscaled,
    degrees: &mut [u8],
    room: Room,
) -> Result<Settings, Refusal>
    ensures { Accepts (graph_lent graph.entry) settings room result degrees.old degrees.new }
{
    graph::check(graph, degrees)?;
    let settings = channel::check_settings(settings.scaled())?;
    if !accepting::long_enough(graph.variables, graph.entries(), room) {
        return Err(Refusal::Buffer);
    }
    Ok(settings)
}

impl Run {
    // Whether the run is open, and can be advanced.
    pub fn is_open(self) -> bool
        ensures { result ≡ is_open self.standing }
    {
        matches!(self.standing, Standing::Open)
    }

    // Whether the record admits an advance by so many iterations.
    fn admits(self, limit: usize, count: usize) -> bool
        ensures { result ≡ admits limit count self }
    {
        self.is_open() && self.iterations < limit && count <= limit
    }

    // Whether record, levels and messages can be carried on.
    fn judge(
        self,
        settings: Settings,
        count: usize,
        n: usize,
        e: usize,
        levels: &[u8],
        variable_messages: &[u8],
        check_messages: &[u8],
    ) -> Result<(), Refusal>
        requires { Admissible settings × (n ≤ length levels.now) × (e ≤ length variable_messages.now) × (e ≤ length check_messages.now) }
        ensures { result ≡ or_else (unless (admits settings.limit count self) Refusals.Advance) (or_else (within_judged (largest settings.channel) levels.now n) (or_else (within_judged (largest settings.message) variable_messages.now e) (within_judged (largest settings.message) check_messages.now e))) }
    {
        if !self.admits(settings.limit as usize, count) {
            return Err(Refusal::Advance);
        }
        check_within(channel::largest(settings.channel), &levels[..n])?;
        let most = channel::largest(settings.message);
        check_within(most, &variable_messages[..e])?;
        check_within(most, &check_messages[..e])
    }

    // The record after up to `count` iterations more, and its state in the lent memory; or the refusal, and the memory as it was.
    fn advance_judged(
        self,
        graph: Graph,
        settings: Unscaled,
        count: u32,
        degrees: &mut [u8],
        levels: &[u8],
        variable_messages: &mut [u8],
        check_messages: &mut [u8],
        sums: &mut [u8],
        bits: &mut [u8],
    ) -> Result<Run, Refusal>
        ensures { Advances (asked_lent graph.entry settings count) (lent self (memory levels.now variable_messages.old check_messages.old sums.old bits.old)) (lent (record_after self result) (memory levels.now variable_messages.new check_messages.new sums.new bits.new)) degrees.old degrees.new (judged_of result) }
    {
        let room = Room {
            levels: levels.len(),
            variable_messages: variable_messages.len(),
            check_messages: check_messages.len(),
            sums: sums.len(),
            bits: bits.len(),
        };
        let settings = accept(graph, settings, degrees, room)?;
        let count = count as usize;
        self.judge(
            settings,
            count,
            graph.variables,
            graph.entries(),
            levels,
            variable_messages,
            check_messages,
        )?;
        if count == 0 {
            return Ok(self);
        }
        Ok(exact::advance_within(
            self,
            count,
            settings,
            graph,
            levels,
            degrees,
            variable_messages,
            check_messages,
            sums,
            bits,
        ))
    }

    // Advances the run by up to `count` iterations: the record handed back, and its state in the lent memory; or the refusal, with record and memory
    // as they were. Reads neither values nor scaling, nor what the lent sums and bits are. Counts the variables' degrees in the list lent for them.
    pub fn advance(
        self,
        graph: Graph,
        settings: Unscaled,
        count: u32,
        degrees: &mut [u8],
        levels: &[u8],
        variable_messages: &mut [u8],
        check_messages: &mut [u8],
        sums: &mut [u8],
        bits: &mut [u8],
    ) -> Advanced
        ensures { Advances (asked_lent graph.entry settings count) (lent self (memory levels.now variable_messages.old check_messages.old sums.old bits.old)) (lent result.run (memory levels.now variable_messages.new check_messages.new sums.new bits.new)) degrees.old degrees.new result.judged }
    {
        let answer = self.advance_judged(
            graph,
            settings,
            count,
            degrees,
            levels,
            variable_messages,
            check_messages,
            sums,
            bits,
        );
        match answer {
            Ok(run) => Advanced {
                run,
                judged: Ok(()),
            },
            Err(refusal) => Advanced {
                run: self,
                judged: Err(refusal),
            },
        }
    }
}
