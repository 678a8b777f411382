// The file that a card makes: its four fields, and where it has names or other fields the edition field before them and those after them.
ghost use Rattle.std.specs.Prelude.{◌≡◌, ◌+◌, ◌*◌};
ghost use Rattle.algebra.specs.Buffers.{Wrote};
ghost use Rattle.meaning.specs.Design.{list_length};
ghost use Rattle.meaning.specs.Card.{field, four_fields, is_second, file_from};
ghost use Rattle.cards.specs.Sizes.{Small};

use printing::put_text;
use records::Card;
use writing::{put_restraint, put_start};

// A card whose numbers are far from the end of every type, so that no sum of them leaves its type.
#[derive(Clone, Copy)]
pub(crate) struct Counted {
    pub(crate) card: Card,
    ghost small: { Small card },
}

impl Counted {
    // Puts the file to the front of lent room, as far as that goes. `body` is what the words of the card give.
    #[tactic(auto, unfolding(meaning::specs::Card::file_from))]
    pub(crate) fn put_file(self, body: &[u8], file: &mut [u8]) -> usize
        ensures { Wrote file.old 0 (file_from self.card body.now) file.new result }
    {
        if !self.is_second() {
            return self.put_fields(file, 0, body);
        }
        let edition = [16u8, 0, 1, 2];
        let start = put_text(file, 0, &edition);
        let end = self.put_fields(file, start, body);
        let others = self.plain_length().min(body.len());
        put_text(file, end, &body[others..])
    }

    // Whether the card has names or other fields: more bytes than its blocks and readings.
    pub(crate) fn is_second(self) -> bool
        ensures { result ≡ is_second self.card }
    {
        self.plain_length() < self.card.length
    }

    // The four fields from a place on.
    #[tactic(auto, unfolding(meaning::specs::Card::four_fields))]
    fn put_fields(self, out: &mut [u8], at: usize, body: &[u8]) -> usize
        ensures { Wrote out.old at (four_fields self.card body.now) out.new result }
    {
        let head = self.card.head;
        let sizes = [head.n as u8, head.flag as u8, head.p as u8, head.m as u8];
        let second = put_field(out, at, 1, &sizes);
        let middle = self.blocks_length().min(body.len());
        let third = put_field(out, second, 2, &body[..middle]);
        let fourth = put_restraint(out, third, self.card.set, self.card.sum);
        let end = self.plain_length().min(body.len());
        put_field(out, fourth, 4, &body[middle..end])
    }

    // How many bytes its blocks have.
    fn blocks_length(self) -> usize
        ensures { result ≡ list_length self.card.head }
    {
        let head = self.card.head;
        2 * head.p * head.m
    }

    // How many bytes its blocks and readings have.
    fn plain_length(self) -> usize
        ensures { result ≡ list_length self.card.head + 4 * self.card.readings }
    {
        self.blocks_length() + 4 * self.card.readings
    }
}

// A field: its tag, the length of its body, its body.
fn put_field(out: &mut [u8], at: usize, tag: u8, body: &[u8]) -> usize
    ensures { Wrote out.old at (field tag body.now) out.new result }
{
    let start = put_start(out, at, tag, body.len());
    put_text(out, start, body)
}
