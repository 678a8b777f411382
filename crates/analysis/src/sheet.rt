// Another laboratory's sheet, held against the published hundredths and the spread of its job.
ghost use Rattle.std.specs.Prelude.{◌≡◌};
ghost use Rattle.meaning.specs.Sheet.{check_answer};

use crate::publishing::column;
use crate::whole::analyse;
use claims::{compare, under};
use design::objects;
use records::{Agreement, Checked, Head, Refusal, Spread};

// Checks a sheet: the tests of the whole job, one claim for each object, then every claim and the spread.
pub fn check_sheet(
    head: Head,
    blocks: &[u8],
    readings: &[i32],
    set: u64,
    sum: i64,
    claims: &[i64],
    claimed: Option<Spread>,
) -> Checked
    ensures { result ≡ check_answer head blocks.now readings.now set sum claims.now claimed }
{
    let mut words = [0u64; 2600];
    let mut values = [0i64; 50];
    let mut deviations = [0i64; 1300];
    let solved = analyse(
        head,
        blocks,
        readings,
        set,
        sum,
        &mut words,
        &mut values,
        &mut deviations,
    );
    under(solved.verdict, Ok(Agreement::Agrees))?;
    let v = objects(head);
    if claims.len() != v {
        return Err(Refusal {
            number: 15,
            place: 0,
        });
    }
    let column = column(&values, solved.denominator, set);
    compare(&column, solved.spreading.spread, claims, claimed)
}
