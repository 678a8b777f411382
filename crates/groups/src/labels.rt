// The groups of objects: each object has a number, and objects of one number are a group. Only whether two numbers are equal counts.
ghost use Rattle.std.specs.Prelude.{◌≡◌, cond, ◌≤◌, length};
ghost use Rattle.meaning.specs.Design.{occ};
ghost use Rattle.meaning.specs.Groups.{even_groups, mate, stranger};
ghost use Rattle.groups.specs.Tables.{sizes_alike};

// Whether there are two groups or more, of one size of at least 2.
pub(crate) fn even_groups(groups: &[u8]) -> bool
    requires { 1 ≤ length groups.now }
    ensures { result ≡ even_groups groups.now }
{
    let size = size_of(groups, groups[0]);
    (2..groups.len()).contains(&size) && sizes_alike(groups, size)
}

// Whether the group of every object has a size.
fn sizes_alike(groups: &[u8], size: usize) -> bool
    ensures { result ≡ sizes_alike groups.now size (length groups.now) }
{
    groups.iter().all(|label| size_of(groups, *label) == size)
}

// How many objects have a number.
fn size_of(groups: &[u8], label: u8) -> usize
    ensures { result ≡ occ label groups.now }
{
    groups.iter().filter(|other| **other == label).count()
}

// The first object after 0 that is of its group, or that is of another one, or how many objects there are where none is.
pub(crate) fn first_other(groups: &[u8], alike: bool) -> usize
    requires { 1 ≤ length groups.now }
    ensures { result ≡ cond alike (mate groups.now) (stranger groups.now) }
{
    let first = groups[0];
    match groups[1..]
        .iter()
        .position(|label| (*label == first) == alike)
    {
        Some(after) => after + 1,
        None => groups.len(),
    }
}
