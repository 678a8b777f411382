// Two objects of a block: in company in one side's word, or in opposition across two. Every count is the language's own count of ones.
// Each function takes any word and any place: a place from 64 on is in no word.
ghost use Rattle.std.specs.Prelude.{◌≡◌};
ghost use Rattle.meaning.specs.Analysis.{member};
ghost use Rattle.words.specs.Bits.{company_of, opposition_of};

// 1 where i and j both stand in a word, and 0 otherwise: then the word has every one of the pair. With i twice, where i stands: the pair has a single one.
pub fn in_company(word: u64, i: usize, j: usize) -> u64
    ensures { result ≡ company_of word i j }
{
    if i > 63 || j > 63 {
        return 0;
    }
    // The ones of the pair are counted, and not two bits tested: every count of objects is the language's own.
    let pair = (1 << i) | (1 << j);
    u64::from((word & pair).count_ones() == pair.count_ones())
}

// 1 where i stands in one word and j in another, and 0 otherwise. The words may share objects.
pub fn in_opposition(own: u64, other: u64, i: usize, j: usize) -> u64
    ensures { result ≡ opposition_of own other i j }
{
    // The product of the two, as the definition of opposition has it.
    holds(own, i) * holds(other, j)
}

// 1 where i stands in a word, and 0 otherwise.
pub fn holds(word: u64, i: usize) -> u64
    ensures { result ≡ member word i }
{
    if i > 63 {
        return 0;
    }
    u64::from((word & (1 << i)).count_ones())
}
