// The points that the words of an `f` name.
#![tactic(auto)]

ghost use Rattle.std.specs.Prelude.{◌≡◌};
ghost use Rattle.mesh.specs.Mesh.{backward, forward, numbered};

use mesh::LineFault;
use text::number_of;

// Where so many points are given: counted from 1.
fn forward_of(number: Option<u64>, given: usize) -> Result<usize, LineFault>
    ensures { result ≡ forward given number }
{
    let k = number.ok_or(LineFault::NotNumber)?;
    if k < 1 || k > given as u64 {
        return Err(LineFault::NotGiven);
    }
    Ok((k - 1) as usize)
}

// Counted from the latest point backwards.
fn backward_of(number: Option<u64>, given: usize) -> Result<usize, LineFault>
    ensures { result ≡ backward given number }
{
    let k = number.ok_or(LineFault::NotNumber)?;
    if k < 1 || k > given as u64 {
        return Err(LineFault::NotGiven);
    }
    Ok(given - k as usize)
}

// The point that a word names, up to its slash, where so many are given.
pub fn corner_of(word: &[u8], given: usize) -> Result<usize, LineFault>
    ensures { result ≡ numbered given word.now }
{
    let n = word.len();
    if n > 0 && word[0] == b'-' {
        return backward_of(number_of(&word[1..n]), given);
    }
    forward_of(number_of(word), given)
}
