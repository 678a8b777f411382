// Where a byte of a card stands for a reader: its line, and its column in it.
ghost use Rattle.std.specs.Prelude.{◌≡◌, cond, ◌+◌, ◌<◌, eqb};
ghost use Rattle.meaning.specs.Card.{line_at, column_at};

// The line of a byte, from 1 on.
pub fn line_of(card: &[u8], place: usize) -> usize
    ensures { result ≡ line_at card.now place }
{
    let before = &card[..place.min(card.len())];
    1 + before.iter().filter(|byte| **byte == b'\n').count()
}

// The column of a byte in its line, from 1 on.
#[tactic(auto, using(crate::proofs::places::Turns::no_more, std::proofs::lemmas::List::take_min))]
pub fn column_of(card: &[u8], place: usize) -> usize
    ensures { result ≡ column_at card.now place }
{
    let mut column: usize = 1;
    for byte in &card[..place.min(card.len())] {
        column = if *byte == b'\n' { 1 } else { column + 1 };
    }
    column
}
