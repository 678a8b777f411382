// The types that the crates of the bench share. What each call answers with them is said in crates/meaning/specs.
#![tactic(auto)]

// The sizes of a design: elements, the flag (which addition develops, and whether the fixed object takes part), objects a side, initial blocks.
#[derive(Clone, Copy)]
pub struct Head {
    pub n: usize,
    pub flag: usize,
    pub p: usize,
    pub m: usize,
}

// Why a call refuses: the request's number, and the place that it speaks of.
#[derive(Clone, Copy, PartialEq, Eq)]
pub struct Refusal {
    pub number: u8,
    pub place: usize,
}

// How a call ends: it accepts, or refuses.
pub type Verdict = Result<(), Refusal>;

// Where the body of a field of a file starts, and the byte after it.
#[derive(Clone, Copy, PartialEq, Eq)]
pub struct Body {
    pub start: usize,
    pub next: usize,
}

// What stands at a place of a file where a field is looked for.
pub type Field = Result<Body, Refusal>;

// The parameters of a balanced design, as the paper names them: l1 and l2 are its two lambdas.
#[derive(Clone, Copy)]
pub struct Parameters {
    pub v: u64,
    pub b: u64,
    pub r: u64,
    pub p: u64,
    pub l1: u64,
    pub l2: u64,
}

// One object's value: a fraction that is not reduced, its published hundredths of a count, and its f64; then its variance factor, the numerator over the
// same denominator, and the factor's f64.
#[derive(Clone, Copy)]
pub struct Value {
    pub numerator: i64,
    pub denominator: u64,
    pub hundredths: i64,
    pub value: f64,
    pub factor: u64,
    pub factor_value: f64,
}

// A number of two words of 64 bits, the high one first: high times 2 to the power 64, and low.
#[derive(Clone, Copy)]
pub struct Wide {
    pub high: u64,
    pub low: u64,
}

// A spread as an f64 with its degrees of freedom. A job without any has none.
#[derive(Clone, Copy)]
pub struct Spread {
    pub value: f64,
    pub freedom: u64,
}

// What a spread is made from: Q, v times beta, the degrees of freedom, and the whole hundredths.
#[derive(Clone, Copy)]
pub struct Spreading {
    pub q: Wide,
    pub vbeta: u64,
    pub freedom: u64,
    pub hundredths: u64,
    pub spread: Option<Spread>,
}

// The answer of a call that judges a design.
#[derive(Clone, Copy)]
pub struct Judged {
    pub verdict: Verdict,
    pub parameters: Parameters,
}

// The differences that arise in a design: how often object e shares a side with object 0, and how often it opposes it.
#[derive(Clone, Copy)]
pub struct Differences {
    pub verdict: Verdict,
    pub within: [u64; 50],
    pub across: [u64; 50],
}

// The answer of a call for the total of one object.
#[derive(Clone, Copy)]
pub struct ObjectTotal {
    pub verdict: Verdict,
    pub total: i64,
}

// The answer of a call for the value of one object.
#[derive(Clone, Copy)]
pub struct ObjectValue {
    pub verdict: Verdict,
    pub value: Value,
}

// The standard uncertainty of a value: whole hundredths of a count with their f64.
#[derive(Clone, Copy)]
pub struct Uncertainty {
    pub hundredths: u64,
    pub value: f64,
}

// The answer of a call for the standard uncertainty of one object, where one is stated.
#[derive(Clone, Copy)]
pub struct ObjectUncertainty {
    pub verdict: Verdict,
    pub uncertainty: Option<Uncertainty>,
}

// The answer of a call for the deviation of one block.
#[derive(Clone, Copy)]
pub struct BlockDeviation {
    pub verdict: Verdict,
    pub numerator: i64,
    pub denominator: u64,
}

// The answer of a call for a sum of squares, and for Q.
#[derive(Clone, Copy)]
pub struct SquareSum {
    pub verdict: Verdict,
    pub sum: Wide,
}

// The answer of a call for the spread of a job.
#[derive(Clone, Copy)]
pub struct JobSpread {
    pub verdict: Verdict,
    pub spreading: Spreading,
}

// The answer of a call that works out a whole job, beside what it lays into the lent rooms: the denominator is that of every value.
#[derive(Clone, Copy)]
pub struct Solved {
    pub verdict: Verdict,
    pub parameters: Parameters,
    pub denominator: u64,
    pub spreading: Spreading,
}

// The answer of a call that reads a job file: its head, the bytes at which its blocks and its readings start, its restraint set and accepted sum.
#[derive(Clone, Copy)]
pub struct JobRead {
    pub verdict: Verdict,
    pub head: Head,
    pub blocks_at: usize,
    pub readings_at: usize,
    pub set: u64,
    pub sum: i64,
}

// The answer of a call that reads a file of the second edition: what reading hands back, and the byte at which the names start, 0 where there are none.
#[derive(Clone, Copy)]
pub struct SecondRead {
    pub job: JobRead,
    pub names_at: usize,
}

// What stands in the fields of a job file, and where: its head; where its blocks, the field of its restraint and its readings start, and how many
// readings there are; its restraint set and accepted sum.
#[derive(Clone, Copy)]
pub struct Held {
    pub head: Head,
    pub blocks_at: usize,
    pub restraint_at: usize,
    pub readings_at: usize,
    pub count: usize,
    pub set: u64,
    pub sum: i64,
}

// The answer of a call that writes a job file: how many bytes it wrote.
#[derive(Clone, Copy)]
pub struct JobWritten {
    pub verdict: Verdict,
    pub length: usize,
}

// The answer of a call that writes the listing: how many bytes it wrote.
#[derive(Clone, Copy)]
pub struct Listed {
    pub verdict: Verdict,
    pub length: usize,
}

// How often two objects meet in a set that is partially balanced with respect to groups, as the paper names it: those of one group share a side l11
// times and oppose l21 times, those of two groups share a side l12 times and oppose l22 times.
#[derive(Clone, Copy)]
pub struct GroupCounts {
    pub l11: u64,
    pub l21: u64,
    pub l12: u64,
    pub l22: u64,
}

// The answer of a call that judges any blocks with respect to groups.
#[derive(Clone, Copy)]
pub struct Grouped {
    pub verdict: Verdict,
    pub counts: GroupCounts,
}

// The parameters of a grouped set: objects, blocks, in how many of them each object stands, objects a side, and its four counts.
#[derive(Clone, Copy)]
pub struct GroupParameters {
    pub v: u64,
    pub b: u64,
    pub r: u64,
    pub p: u64,
    pub counts: GroupCounts,
}

// The answer of a call that makes a grouped set from a design, beside the words that it lays into the lent room.
#[derive(Clone, Copy)]
pub struct GroupedSet {
    pub verdict: Verdict,
    pub parameters: GroupParameters,
}

// What a sheet comes to that can be checked: it agrees; or the first object whose claim differs, v where only the spread does.
#[derive(Clone, Copy, PartialEq, Eq)]
pub enum Agreement {
    Agrees,
    Differs(usize),
}

// The answer of a call that checks a sheet.
pub type Checked = Result<Agreement, Refusal>;

// What a sheet's text claims of the spread: the degrees of freedom, and the whole hundredths, or that there are none.
#[derive(Clone, Copy)]
pub struct SheetSpread {
    pub freedom: u64,
    pub hundredths: Option<u64>,
}

// What was read of a sheet's text: its first line that cannot be read, counted from 1, if there is one; how many claims there are; what it claims of the
// spread.
#[derive(Clone, Copy)]
pub struct SheetRead {
    pub line: Option<usize>,
    pub count: usize,
    pub spread: Option<SheetSpread>,
}

// The answer of a call that pools the spread of several jobs: beside the verdict the index of the job that it speaks of, 0 where it speaks of none.
#[derive(Clone, Copy)]
pub struct Pooled {
    pub verdict: Verdict,
    pub index: usize,
    pub spreading: Spreading,
}

// A card as far as its words go: what the next word is to be, by the list beside the definition; whether the last one was not what it was to be; the sizes; how
// many objects of a side or names there are, or the last tag; the restraint; how many readings there are, and bytes of the file that the words give.
#[derive(Clone, Copy)]
pub struct Card {
    pub wants: usize,
    pub bad: bool,
    pub head: Head,
    pub count: usize,
    pub set: u64,
    pub sum: i64,
    pub readings: usize,
    pub length: usize,
}

// The answer of the call that makes the file of a card: the verdict, whose place is a byte of the card; what was wanted where the card cannot be read, else 0;
// and how many bytes were written.
#[derive(Clone, Copy)]
pub struct CardRead {
    pub verdict: Verdict,
    pub wants: usize,
    pub length: usize,
}
