// Numbers, fields and fixed texts put into a list of bytes.
#![tactic(auto)]

ghost use Rattle.std.specs.Prelude.{[], ◌∷◌, ◌++◌, ◌+◌, ◌-◌, ◌%◌, ◌<◌, ◌≤◌, length};
ghost use Rattle.texts.specs.Numbers.{decimal};
ghost use Rattle.texts.specs.Putting.{Put, last_three};

// Puts a fixed text at a place. Each `put` answers the place after what it put.
pub fn put_fixed(text: &mut [u8], at: usize, x: &[u8]) -> usize
    requires { at + length x.now ≤ length text.old }
    ensures { Put x.now text.old text.new at result }
{
    // By a loop: in the library, calls would keep the fixed texts as lists of constants.
    for k in 0..x.len() {
        text[at + k] = x[k];
    }
    at + x.len()
}

// Puts the last digit of a number.
fn put_digit(text: &mut [u8], at: usize, k: usize) -> usize
    requires { at < length text.old }
    ensures { Put ((48 + k % 10) ∷ []) text.old text.new at result }
{
    text[at] = b'0' + (k % 10) as u8;
    at + 1
}

// Puts the digits of a number, with a call for each.
fn put_long(text: &mut [u8], at: usize, k: usize) -> usize
    requires { at + length (decimal k) ≤ length text.old }
    ensures { Put (decimal k) text.old text.new at result }
{
    if k < 10 {
        return put_digit(text, at, k);
    }
    let last = put_long(text, at, k / 10);
    put_digit(text, last, k)
}

// Puts the last three digits of a number.
fn put_three(text: &mut [u8], at: usize, k: usize) -> usize
    requires { at + 3 ≤ length text.old }
    ensures { Put (last_three k) text.old text.new at result }
{
    let tens = k / 10;
    let i = put_digit(text, at, tens / 10);
    let j = put_digit(text, i, tens);
    put_digit(text, j, k)
}

// Puts the digits of a number below 1,000.
fn put_short(text: &mut [u8], at: usize, k: usize) -> usize
    requires { (k < 1000) × (at + length (decimal k) ≤ length text.old) }
    ensures { Put (decimal k) text.old text.new at result }
{
    if k < 10 {
        return put_digit(text, at, k);
    }
    if k < 100 {
        let i = put_digit(text, at, k / 10);
        return put_digit(text, i, k);
    }
    put_three(text, at, k)
}

// Puts the digits of a number.
pub fn put_number(text: &mut [u8], at: usize, k: usize) -> usize
    requires { at + length (decimal k) ≤ length text.old }
    ensures { Put (decimal k) text.old text.new at result }
{
    if k < 1000 {
        return put_short(text, at, k);
    }
    if k < 1000000 {
        let i = put_short(text, at, k / 10 / 10 / 10);
        return put_three(text, i, k);
    }
    put_long(text, at, k)
}

// Puts the digits of a number, and the byte x after them.
pub fn put_field(text: &mut [u8], at: usize, k: usize, x: u8) -> usize
    requires { at + length (decimal k) < length text.old }
    ensures { Put (decimal k ++ (x ∷ [])) text.old text.new at result }
{
    let i = put_number(text, at, k);
    text[i] = x;
    i + 1
}
