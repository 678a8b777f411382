// Calls for cards: the card of a job file, and of a file of the second edition.
ghost use Rattle.std.specs.Prelude.{◌≡◌};
ghost use Rattle.slots.specs.Told.{told};
ghost use Rattle.slots.specs.Answers.{listed_call, listed_laid};
ghost use Rattle.api.specs.Cards.{file_card, card_put, second_card, second_card_put};

use cards::{card_of, card_of_second};
use records::Refusal;
use slots::{lay_listed, told};

// Writes the card of a job file to the front of `out`. Without a slot nothing is written.
#[tactic(auto, using(crate::proofs::Slots::text_calls), unfolding(slots::specs::Answers::listed_call))]
#[unsafe(no_mangle)]
pub extern "C" fn bench_card(bytes: &[u8], out: &mut [u8], answer: &mut [u64]) -> u64
    ensures value { result ≡ told (listed_call (file_card bytes.now out.old) answer.old) }
    ensures out_after { out.new ≡ card_put bytes.now out.old answer.old }
    ensures answer_after { answer.new ≡ listed_laid (file_card bytes.now out.old) answer.old }
{
    if answer.is_empty() {
        return told(Err(Refusal {
            number: 10,
            place: 0,
        }));
    }
    lay_listed(card_of(bytes, out), answer)
}

// Writes the card of a file of the second edition to the front of `out`, with its names and its other optional fields. Without a slot nothing is written.
#[tactic(auto, using(crate::proofs::Slots::text_calls), unfolding(slots::specs::Answers::listed_call))]
#[unsafe(no_mangle)]
pub extern "C" fn bench_card_second(bytes: &[u8], out: &mut [u8], answer: &mut [u64]) -> u64
    ensures value { result ≡ told (listed_call (second_card bytes.now out.old) answer.old) }
    ensures out_after { out.new ≡ second_card_put bytes.now out.old answer.old }
    ensures answer_after { answer.new ≡ listed_laid (second_card bytes.now out.old) answer.old }
{
    if answer.is_empty() {
        return told(Err(Refusal {
            number: 10,
            place: 0,
        }));
    }
    lay_listed(card_of_second(bytes, out), answer)
}
