// The generator of the noise: its step, wrapping at 32 bits, and the noise in a number.
ghost use Rattle.std.specs.Prelude.{◌≡◌, ◌*◌, ◌%◌, ◌^◌, ◌≤◌};
ghost use Rattle.meaning.specs.Practice.{step, noise, width_limit};

// x times y, wrapping at 32 bits: the low 32 bits of the product. The request names such a helper, so it has a promise of its own.
fn wrapping_mul(x: u32, y: u32) -> u32
    ensures { result ≡ (x * y) % 2 ^ 32 }
{
    x.wrapping_mul(y)
}

// One step: a wrapping product and a wrapping sum.
#[tactic(auto, unfolding(meaning::specs::Practice::step))]
pub(crate) fn step(x: u32) -> u32
    ensures { result ≡ step x }
{
    wrapping_mul(1664525, x).wrapping_add(1013904223)
}

// The top bits of x, as many as the width says, less half of their range. No bits are no noise: nothing is shifted by 32.
pub(crate) fn noise_in(x: u32, width: usize) -> i64
    requires { width ≤ width_limit }
    ensures { result ≡ noise width x }
{
    if width == 0 {
        return 0;
    }
    let top = x as u64 >> (32 - width);
    let half = 1u64 << (width - 1);
    top as i64 - half as i64
}
