// Another laboratory's sheet against the job of a file, of either edition: the file is read, then its job is held against the claims.
ghost use Rattle.std.specs.Prelude.{◌≡◌};
ghost use Rattle.meaning.specs.Refusals.{accepted};
ghost use Rattle.meaning.specs.File.{fields};
ghost use Rattle.meaning.specs.Sheet.{file_answer, second_answer};
ghost use Rattle.job.specs.Direct.{direct_checked};

use crate::reading::read_refusal;
use crate::second::{four_fields, second_refusal};
use analysis::sheet::check_sheet;
use claims::under;
use fields::held;
use numbers::readings;
use records::{Agreement, Checked, Spread};

// Checks a sheet against a file of the first edition.
pub fn check_file(bytes: &[u8], claims: &[i64], claimed: Option<Spread>) -> Checked
    ensures { result ≡ file_answer bytes.now claims.now claimed }
{
    under(read_refusal(bytes), Ok(Agreement::Agrees))?;
    check_held(bytes, claims, claimed)
}

// Checks a sheet against a file of the second edition.
pub fn check_second(bytes: &[u8], claims: &[i64], claimed: Option<Spread>) -> Checked
    ensures { result ≡ second_answer bytes.now claims.now claimed }
{
    under(second_refusal(bytes), Ok(Agreement::Agrees))?;
    check_held(four_fields(bytes), claims, claimed)
}

// Checks a sheet against what a file holds, whose fields are there.
fn check_held(bytes: &[u8], claims: &[i64], claimed: Option<Spread>) -> Checked
    requires { fields bytes.now ≡ accepted }
    ensures { result ≡ direct_checked bytes.now claims.now claimed }
{
    let held = held(bytes);
    // Decoded here: a function that handed the readings out would copy them.
    let mut decoded = [0i32; 1300];
    readings(bytes, held.readings_at, held.count, &mut decoded);
    check_sheet(
        held.head,
        &bytes[held.blocks_at..held.restraint_at],
        &decoded[..held.count],
        held.set,
        held.sum,
        claims,
        claimed,
    )
}
