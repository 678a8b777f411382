// The certificate of what was worked out: its lines one after the other, rendered into lent room.
ghost use Rattle.std.specs.Prelude.{◌≡◌, ◌≤◌, pos, ◌*ℤ◌, nat_abs, length, take};
ghost use Rattle.algebra.specs.Buffers.{Wrote};
ghost use Rattle.meaning.specs.Refusals.{sum_limit};
ghost use Rattle.meaning.specs.Text.{text_answer, text_after};
ghost use Rattle.meaning.specs.Certificate.{design_words, name_from, weight_line};
ghost use Rattle.listing.specs.Certified.{heading_text, weight_lines, sums_text, spread_lines, certified_lines, certified_text};

use crate::columns::{
    put_count, put_named, put_object, put_spread, put_standard, put_uncertainty, put_value,
};
use crate::lines::put_refused;
use analysis::uncertainty::uncertainty_in;
use printing::{put_byte, put_number, put_text};
use records::{JobRead, Listed, Parameters, Refusal, Solved, Spreading, Uncertainty};
use words::holds;

// What stands above the weights: the title, the design, the names of the columns.
fn put_heading(out: &mut [u8], at: usize, parameters: Parameters) -> usize
    ensures { Wrote out.old at (heading_text parameters) out.new result }
{
    let title_end = put_text(
        out,
        at,
        b"certificate: values and standard uncertainties in counts of the comparator\n",
    );
    let design_end = put_design(out, title_end, parameters);
    put_text(
        out,
        design_end,
        b"weight  name                             standard                   value           uncertainty\n",
    )
}

// The parameters of the design, each after its name.
fn put_design(out: &mut [u8], at: usize, parameters: Parameters) -> usize
    ensures { Wrote out.old at (design_words parameters) out.new result }
{
    let v_name = put_text(out, at, b"design: v");
    let v_end = put_number(out, v_name, parameters.v);
    let b_name = put_text(out, v_end, b", b");
    let b_end = put_number(out, b_name, parameters.b);
    let r_name = put_text(out, b_end, b", r");
    let r_end = put_number(out, r_name, parameters.r);
    let p_name = put_text(out, r_end, b", p");
    let p_end = put_number(out, p_name, parameters.p);
    let l1_name = put_text(out, p_end, b", L1");
    let l1_end = put_number(out, l1_name, parameters.l1);
    let l2_name = put_text(out, l1_end, b", L2");
    let l2_end = put_number(out, l2_name, parameters.l2);
    put_byte(out, l2_end, 10)
}

// The line of a weight.
fn put_weight(
    out: &mut [u8],
    at: usize,
    bytes: &[u8],
    names: usize,
    object: usize,
    held: u64,
    hundredths: i64,
    uncertainty: Option<Uncertainty>,
) -> usize
    ensures { Wrote out.old at (weight_line object (name_from bytes.now names object) held hundredths uncertainty)
        out.new result }
{
    let object_end = put_object(out, at, object);
    let name_end = put_named(out, object_end, bytes, names, object);
    let standard_end = put_standard(out, name_end, held);
    let value_end = put_value(out, standard_end, hundredths);
    let uncertainty_end = put_uncertainty(out, value_end, uncertainty);
    put_byte(out, uncertainty_end, 10)
}

// A line for each weight: its published hundredths are in a slice.
fn put_weights(
    out: &mut [u8],
    at: usize,
    bytes: &[u8],
    names: usize,
    hundredths: &[i64],
    solved: Solved,
    set: u64,
) -> usize
    ensures { Wrote out.old at (weight_lines bytes.now names hundredths.now solved set
        (length hundredths.now)) out.new result }
{
    let spreading = solved.spreading;
    let mut place = at;
    for (i, published) in hundredths.iter().enumerate() {
        let held = holds(set, i);
        let uncertainty = uncertainty_in(spreading, solved.denominator, set, i);
        place = put_weight(out, place, bytes, names, i, held, *published, uncertainty);
    }
    place
}

// The sum over the standards beside M. Their published hundredths add to 100·M (02, P3), so that is what is put for their sum.
fn put_sums(out: &mut [u8], at: usize, sum: i64) -> usize
    requires { nat_abs sum ≤ sum_limit }
    ensures { Wrote out.old at (sums_text (pos 100 *ℤ sum)) out.new result }
{
    let hundredths = 100 * sum;
    let standards = put_text(
        out,
        at,
        b"sum of the standards                               ",
    );
    let standards_figure = put_value(out, standards, hundredths);
    let standards_end = put_byte(out, standards_figure, 10);
    let accepted = put_text(
        out,
        standards_end,
        b"accepted sum M                                     ",
    );
    let accepted_figure = put_value(out, accepted, hundredths);
    put_byte(out, accepted_figure, 10)
}

// The spread, with its degrees of freedom.
fn put_spreading(out: &mut [u8], at: usize, spreading: Spreading) -> usize
    ensures { Wrote out.old at (spread_lines spreading) out.new result }
{
    let words = put_text(
        out,
        at,
        b"spread                                             ",
    );
    let figure = put_spread(out, words, spreading.spread, spreading.hundredths);
    let spread_end = put_byte(out, figure, 10);
    let freedom = put_text(
        out,
        spread_end,
        b"degrees of freedom                                 ",
    );
    let freedom_figure = put_count(out, freedom, spreading.freedom);
    put_byte(out, freedom_figure, 10)
}

// All lines of an accepted job.
fn put_certified(
    out: &mut [u8],
    at: usize,
    bytes: &[u8],
    names: usize,
    hundredths: &[i64],
    solved: Solved,
    set: u64,
    sum: i64,
) -> usize
    requires { nat_abs sum ≤ sum_limit }
    ensures { Wrote out.old at (certified_lines bytes.now names hundredths.now solved set sum)
        out.new result }
{
    let heading_end = put_heading(out, at, solved.parameters);
    let weights_end = put_weights(out, heading_end, bytes, names, hundredths, solved, set);
    let sums_end = put_sums(out, weights_end, sum);
    let spread_end = put_spreading(out, sums_end, solved.spreading);
    put_text(
        out,
        spread_end,
        b"proved: demand-1 demand-2 demand-3 uncertainty-per-object standard-uncertainty certificates\n",
    )
}

// The certificate, or the line of the refusal.
fn put_certificate(
    out: &mut [u8],
    at: usize,
    bytes: &[u8],
    names: usize,
    hundredths: &[i64],
    solved: Solved,
    set: u64,
    sum: i64,
) -> usize
    requires { nat_abs sum ≤ sum_limit }
    ensures { Wrote out.old at (certified_text bytes.now names hundredths.now solved set sum)
        out.new result }
{
    match solved.verdict {
        Ok(()) => put_certified(out, at, bytes, names, hundredths, solved, set, sum),
        Err(Refusal { number, place }) => put_refused(out, at, number, place),
    }
}

// The text at the front of `out`, whose other bytes stay, from the first numbers of a column: one for each object. A run over one byte of its own finds
// the length first, so that nothing is written where it has no room.
pub(crate) fn certify(
    bytes: &[u8],
    names: usize,
    column: &[i64],
    solved: Solved,
    found: JobRead,
    out: &mut [u8],
) -> Listed
    requires long { solved.parameters.v ≤ length column.now }
    requires small { nat_abs found.sum ≤ sum_limit }
    ensures value { result ≡ text_answer (certified_text bytes.now names (take solved.parameters.v column.now) solved found.set found.sum)
        (length out.old) }
    ensures out_after { out.new ≡ text_after (certified_text bytes.now names (take solved.parameters.v column.now) solved found.set found.sum)
        out.old }
{
    let hundredths = &column[..solved.parameters.v as usize];
    let JobRead { set, sum, .. } = found;
    let mut one = [0u8; 1];
    let length = put_certificate(&mut one, 0, bytes, names, hundredths, solved, set, sum);
    if out.len() < length {
        return Listed {
            verdict: Err(Refusal {
                number: 10,
                place: 0,
            }),
            length: 0,
        };
    }
    put_certificate(out, 0, bytes, names, hundredths, solved, set, sum);
    Listed {
        verdict: Ok(()),
        length,
    }
}
