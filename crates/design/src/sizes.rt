// The sizes of a design: whether a head keeps to the request's, and what it then counts. v is worked out here alone.
ghost use Rattle.std.specs.Prelude.{◌≡◌, ◌≤◌};
ghost use Rattle.meaning.specs.Design.{objects, with_fixed, by_field, field_prime, has_addition, sized};
ghost use Rattle.design.specs.Within.{within};

use records::Head;

// Whether the sizes are the request's. Each factor is bounded before a sum or a product is made of it, so that nothing wraps.
pub fn sized(head: Head) -> bool
    ensures { result ≡ sized head }
{
    let Head { n, flag, p, m } = head;
    (3..=50).contains(&n)
        && (0..=3).contains(&flag)
        && has_addition(head)
        && counted(head) <= 50
        && (1..=counted(head) / 2).contains(&p)
        && (1..=64).contains(&m)
        && m * n <= 1300
}

// v, the number of objects; 0 where a size is broken.
pub fn objects(head: Head) -> usize
    ensures { result ≡ within head (objects head) }
{
    if sized(head) { counted(head) } else { 0 }
}

// The elements, and the fixed object where it takes part.
fn counted(head: Head) -> usize
    requires { head.n ≤ 50 }
    ensures { result ≡ objects head }
{
    head.n + usize::from(with_fixed(head))
}

// Whether the fixed object takes part.
pub(crate) fn with_fixed(head: Head) -> bool
    ensures { result ≡ with_fixed head }
{
    head.flag % 2 == 1
}

// Whether blocks are developed by the addition of a field.
pub(crate) fn by_field(head: Head) -> bool
    ensures { result ≡ by_field head }
{
    2 <= head.flag
}

// Whether there is an addition to develop by.
fn has_addition(head: Head) -> bool
    ensures { result ≡ has_addition head }
{
    !by_field(head) || 0 < field_prime(head.n)
}

// The prime of the field of n elements, 0 where the request has no such field.
#[tactic(auto, unfolding(meaning::specs::Design::field_prime))]
fn field_prime(n: usize) -> usize
    ensures { result ≡ field_prime n }
{
    match n {
        8 | 16 | 32 => 2,
        9 | 27 => 3,
        25 => 5,
        49 => 7,
        _ => 0,
    }
}
