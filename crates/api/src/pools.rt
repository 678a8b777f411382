// A call on several jobs: their spread pooled.
ghost use Rattle.std.specs.Prelude.{◌≡◌};
ghost use Rattle.meaning.specs.Pooled.{pooled_answer};
ghost use Rattle.slots.specs.Pools.{pooled_told, pooled_laid, pooled_real};

use job::pool;
use slots::lay_pooled;

// The pooled spread of files of the first edition, laid end to end, with a list of their lengths.
#[unsafe(no_mangle)]
pub extern "C" fn bench_pool(
    bytes: &[u8],
    lengths: &[usize],
    answer: &mut [u64],
    real: &mut [f64],
) -> u64
    ensures value { result ≡ pooled_told (pooled_answer bytes.now lengths.now) answer.old real.old }
    ensures answer_after { answer.new ≡ pooled_laid (pooled_answer bytes.now lengths.now) answer.old real.old }
    ensures real_after { real.new ≡ pooled_real (pooled_answer bytes.now lengths.now) answer.old real.old }
{
    lay_pooled(pool(bytes, lengths), answer, real)
}
