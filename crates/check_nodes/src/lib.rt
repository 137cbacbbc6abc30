// Check nodes: the messages that checks send.
#![tactic(auto)]

ghost use Rattle.std.specs.Prelude.{◌≡◌, cond, ◌+◌, ◌%◌, ◌<◌, min, max, leb, ltb, length};
ghost use Rattle.std.specs.Bool.{xor};
ghost use Rattle.rules.specs.Ranges.{tabulate};
ghost use Rattle.rules.specs.Levels.{byte};
ghost use Rattle.rules.specs.Nodes.{from_check};
ghost use Rattle.nodes.specs.Memory.{level_in, on_starts};
ghost use Rattle.nodes.specs.Rows.{row_message, Kept, Rows};

pub mod first;

// Of the levels so far: the product of signs, the least magnitude, and the least once a level that has it is left out.
// The magnitudes are widened once: in u32 the comparisons of a row compile to the fewest instructions.
#[derive(Clone, Copy)]
pub struct Least {
    pub minus: bool,
    pub least: u32,
    pub second: u32,
}

// The same with the level b more.
fn absorb(s: Least, b: u8) -> Least
    ensures { (result.minus ≡ xor s.minus (leb 128 b)) × (result.least ≡ min s.least (b % 128)) × (result.second ≡ min s.second (max s.least (b % 128))) }
{
    let m = (b % 128) as u32;
    Least {
        minus: s.minus ^ (128 <= b),
        least: s.least.min(m),
        second: s.second.min(s.least.max(m)),
    }
}

// One pass over a row.
fn summarize(incoming: &[u8]) -> Least
    ensures { Kept (level_in incoming.now) (length incoming.now) result.minus result.least result.second }
{
    let mut s = Least {
        minus: false,
        least: 127,
        second: 127,
    };
    for &b in incoming {
        s = absorb(s, b);
    }
    s
}

// The byte of a sign and a magnitude.
pub fn byte_of(minus: bool, m: u8) -> u8
    requires { m < 128 }
    ensures { result ≡ m + cond minus 128 0 }
{
    if minus { m + 128 } else { m }
}

// The least of the others, for an entry whose own magnitude is m. Where the least stands twice, the second equals it.
fn least_but(s: Least, m: u32) -> u32
    ensures { result ≡ cond (ltb s.least m) s.least s.second }
{
    if s.least < m { s.least } else { s.second }
}

// The sign of the others, for an entry whose own level is b, as it stands in a byte.
fn sign_but(s: Least, b: u8) -> u8
    ensures { result ≡ cond (xor s.minus (leb 128 b)) 128 0 }
{
    128 * ((s.minus as u8 + b / 128) % 2)
}

// What goes to an entry whose own level is b.
fn answer(s: Least, b: u8) -> u8
    requires { (s.least < 128) × (s.second < 128) }
    ensures { result ≡ cond (ltb s.least (b % 128)) s.least s.second + cond (xor s.minus (leb 128 b)) 128 0 }
{
    least_but(s, (b % 128) as u32) as u8 + sign_but(s, b)
}

// The check node of one row.
fn check_row(incoming: &[u8], outgoing: &mut [u8])
    requires { length outgoing.old ≡ length incoming.now }
    ensures { outgoing.new ≡ tabulate (λ j. byte (row_message (level_in incoming.now) (length incoming.now) j)) (length incoming.now) }
{
    let s = summarize(incoming);
    for (j, &b) in incoming.iter().enumerate() {
        outgoing[j] = answer(s, b);
    }
}

// The check nodes of all rows.
pub fn check_nodes(starts: &[u8], incoming: &[u8], outgoing: &mut [u8])
    requires { Rows starts.now (length incoming.now) × (length outgoing.old ≡ length incoming.now) }
    ensures { outgoing.new ≡ tabulate (λ e. byte (from_check (on_starts starts.now) (level_in incoming.now) e)) (length incoming.now) }
{
    let m = starts.len() / words::WIDE - 1;
    for i in 0..m {
        let a = words::start(starts, i);
        let b = words::start(starts, i + 1);
        check_row(&incoming[a..b], &mut outgoing[a..b]);
    }
}
