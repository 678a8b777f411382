// Calls for certificates: of a job file, and of a file of the second edition.
ghost use Rattle.std.specs.Prelude.{◌≡◌};
ghost use Rattle.slots.specs.Told.{told};
ghost use Rattle.slots.specs.Answers.{listed_call, listed_laid};
ghost use Rattle.api.specs.Files.{file_certified, certificate_text};
ghost use Rattle.api.specs.Second.{second_certified, second_certificate};

use listing::{certificate, certificate_second};
use records::Refusal;
use slots::{lay_listed, told};

// Writes the certificate of a job file to the front of `out`. Without a slot nothing is written.
#[tactic(auto, using(crate::proofs::Slots::text_calls), unfolding(slots::specs::Answers::listed_call))]
#[unsafe(no_mangle)]
pub extern "C" fn bench_certificate(bytes: &[u8], out: &mut [u8], answer: &mut [u64]) -> u64
    ensures value { result ≡ told (listed_call (file_certified bytes.now out.old) answer.old) }
    ensures out_after { out.new ≡ certificate_text bytes.now out.old answer.old }
    ensures answer_after { answer.new ≡ listed_laid (file_certified bytes.now out.old) answer.old }
{
    if answer.is_empty() {
        return told(Err(Refusal {
            number: 10,
            place: 0,
        }));
    }
    lay_listed(certificate(bytes, out), answer)
}

// Writes the certificate of a file of the second edition to the front of `out`, with its names. Without a slot nothing is written.
#[tactic(auto, using(crate::proofs::Slots::text_calls), unfolding(slots::specs::Answers::listed_call))]
#[unsafe(no_mangle)]
pub extern "C" fn bench_certificate_second(bytes: &[u8], out: &mut [u8], answer: &mut [u64]) -> u64
    ensures value { result ≡ told (listed_call (second_certified bytes.now out.old) answer.old) }
    ensures out_after { out.new ≡ second_certificate bytes.now out.old answer.old }
    ensures answer_after { answer.new ≡ listed_laid (second_certified bytes.now out.old) answer.old }
{
    if answer.is_empty() {
        return told(Err(Refusal {
            number: 10,
            place: 0,
        }));
    }
    lay_listed(certificate_second(bytes, out), answer)
}
