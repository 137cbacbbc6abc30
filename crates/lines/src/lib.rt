// Decimal numbers, lines of two and of three numbers and fixed texts at a place of a text, read.
#![tactic(auto)]

ghost use Rattle.std.specs.Prelude.{◌≡◌, ◌+◌, ◌-◌, ◌*◌, ◌<◌, ◌≤◌, min, length, drop};
ghost use Rattle.texts.specs.Numbers.{number};
ghost use Rattle.texts.specs.Lines.{field, line};
ghost use Rattle.texts.specs.Places.{cap, DigitAt, ByteAt, NumberRead, NumberAt, Known, LineRead, LineAt, KnownLine, FixedAt};
ghost use Rattle.texts.specs.Triples.{triple_line, TripleRead, TripleAt, KnownTriple};

use texts::Parsed;

// Above every limit: a number from here on is given as this.
const CAP: usize = 1_000_000_000;

// The number v with the digit d after it.
fn push(v: usize, d: usize) -> usize
    requires { (v ≤ cap) × (d ≤ 9) }
    ensures { result ≡ min (v * 10 + d) cap }
{
    (v * 10 + d).min(CAP)
}

// The digit at a place.
#[tactic(auto, unfolding(texts::specs::Numbers::front_digit))]
fn digit_at(s: &[u8], at: usize) -> Option<usize>
    ensures { DigitAt s.now at result }
{
    let &b = s.get(at)?;
    if b.is_ascii_digit() {
        Some(usize::from(b - b'0'))
    } else {
        None
    }
}

// The number at a place.
pub fn number_at(s: &[u8], at: usize) -> Option<Parsed<usize>>
    ensures { NumberAt number s.now at result }
{
    let first = digit_at(s, at)?;
    if first == 0 {
        return Some(Parsed {
            value: 0,
            next: at + 1,
        });
    }
    let mut value = first;
    for next in at + 1..s.len() {
        let Some(digit) = digit_at(s, next) else {
            return Some(Parsed { value, next });
        };
        value = push(value, digit);
    }
    Some(Parsed {
        value,
        next: s.len(),
    })
}

// The place after the byte x, where it stands at a place.
pub fn byte_at(s: &[u8], at: usize, x: u8) -> Option<usize>
    ensures { ByteAt x s.now at result }
{
    if at < s.len() && s[at] == x {
        Some(at + 1)
    } else {
        None
    }
}

// A number at a place, with the byte x after it.
#[tactic(auto, unfolding(texts::specs::Lines::field))]
pub fn field_at(s: &[u8], at: usize, x: u8) -> Option<Parsed<usize>>
    ensures { NumberAt (field x) s.now at result }
{
    let number = number_at(s, at)?;
    let next = byte_at(s, number.next, x)?;
    Some(Parsed { next, ..number })
}

// The line of two numbers at a place.
#[tactic(auto, unfolding(texts::specs::Lines::line))]
pub fn line_at(s: &[u8], at: usize) -> Option<Parsed<(usize, usize)>>
    ensures { LineAt s.now at result }
{
    let first = field_at(s, at, b' ')?;
    let second = field_at(s, first.next, b'\n')?;
    Some(Parsed {
        value: (first.value, second.value),
        next: second.next,
    })
}

// The line of three numbers at a place.
#[tactic(auto, unfolding(texts::specs::Triples::triple_line))]
pub fn three_at(s: &[u8], at: usize) -> Option<Parsed<(usize, usize, usize)>>
    ensures { TripleAt s.now at result }
{
    let first = field_at(s, at, b' ')?;
    let rest = line_at(s, first.next)?;
    let (second, third) = rest.value;
    Some(Parsed {
        value: (first.value, second, third),
        next: rest.next,
    })
}

// The number v with one digit more, the byte b.
fn with_digit(v: usize, b: u8) -> usize
    requires { (v < cap) × (48 ≤ b) × (b ≤ 57) }
    ensures { result ≡ v * 10 + (b - 48) }
{
    v * 10 + usize::from(b - b'0')
}

// The number at a place with the byte x after it, in a text that was judged before: its bytes are not judged again.
// Three digits in a turn: with one a line is read 6 to 20 % slower.
pub fn known_field_at(s: &[u8], at: usize, x: u8) -> Parsed<usize>
    requires { (x < 48) × Known (field x) s.now at }
    ensures { NumberRead (field x (drop at s.now)) s.now at result.value result.next }
{
    let mut value = 0;
    let mut i = at;
    while s[i] != x {
        let one = with_digit(value, s[i]);
        let second = s[i + 1];
        if second == x {
            return Parsed {
                value: one,
                next: i + 2,
            };
        }
        let two = with_digit(one, second);
        let third = s[i + 2];
        if third == x {
            return Parsed {
                value: two,
                next: i + 3,
            };
        }
        value = with_digit(two, third);
        i += 3;
    }
    Parsed { value, next: i + 1 }
}

// The line of two numbers at a place, in a text that was judged before.
pub fn known_line_at(s: &[u8], at: usize) -> Parsed<(usize, usize)>
    requires { KnownLine s.now at }
    ensures { LineRead (line (drop at s.now)) s.now at result.value.0 result.value.1 result.next }
{
    let first = known_field_at(s, at, b' ');
    let second = known_field_at(s, first.next, b'\n');
    Parsed {
        value: (first.value, second.value),
        next: second.next,
    }
}

// The line of three numbers at a place, in a text that was judged before.
pub fn known_three_at(s: &[u8], at: usize) -> Parsed<(usize, usize, usize)>
    requires { KnownTriple s.now at }
    ensures { TripleRead (triple_line (drop at s.now)) s.now at result.value.0 result.value.1 result.value.2 result.next }
{
    let first = known_field_at(s, at, b' ');
    let rest = known_line_at(s, first.next);
    let (second, third) = rest.value;
    Parsed {
        value: (first.value, second, third),
        next: rest.next,
    }
}

// The place after the fixed text x, where it stands at a place.
pub fn fixed_at(x: &[u8], s: &[u8], at: usize) -> Option<usize>
    requires { at ≤ length s.now }
    ensures { FixedAt x.now s.now at result }
{
    // By a loop: in the library, calls would keep the fixed texts as lists of constants.
    for j in 0..x.len() {
        if s.len() <= at + j {
            return None;
        }
        if s[at + j] != x[j] {
            return None;
        }
    }
    Some(at + x.len())
}
