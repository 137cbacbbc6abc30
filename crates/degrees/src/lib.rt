// The list of the variables' degrees, in which they are counted: 32-bit numbers in bytes.
#![tactic(auto)]

ghost use Rattle.std.specs.Prelude.{◌≡◌, ◌++◌, ◌+◌, ◌*◌, ◌/◌, ◌^◌, ◌≤◌, ◌<◌, length, drop};
ghost use Rattle.rules.specs.Graphs.{limits};
ghost use Rattle.words.specs.Words.{stored, table};
ghost use Rattle.words.specs.Roles.{degree_at};
ghost use Rattle.graphs.specs.Variables.{variables_judged};

use refusals::Refusal;

// Makes the degrees of n variables 0.
pub fn clear(degrees: &mut [u8], n: usize)
    requires { n ≤ length degrees.old / 4 }
    ensures { degrees.new ≡ table 4 (λ _. 0) n ++ drop (4 * n) degrees.old }
{
    for v in 0..n {
        words::put_degree(degrees, v, 0);
    }
}

// Adds one to the degree of variable v.
pub fn add_one(degrees: &mut [u8], v: usize)
    requires { (v < length degrees.old / 4) × (degree_at degrees.old v + 1 < 2 ^ 32) }
    ensures { degrees.new ≡ stored 4 degrees.old (4 * v) (degree_at degrees.old v + 1) }
{
    let d = words::degree(degrees, v);
    words::put_degree(degrees, v, (d + 1) as u32);
}

// 5, for n variables after m checks.
pub fn judge(m: usize, n: usize, degrees: &[u8]) -> Result<(), Refusal>
    requires { (m ≤ limits.checks) × (n ≤ limits.variables) × (n ≤ length degrees.now / 4) }
    ensures { result ≡ variables_judged limits m (degree_at degrees.now) n }
{
    for v in 0..n {
        if !rules::in_range(
            rules::LEAST_VARIABLE_DEGREE,
            words::degree(degrees, v),
            rules::LARGEST_VARIABLE_DEGREE,
        ) {
            return Err(Refusal::Degree(m + v));
        }
    }
    Ok(())
}
