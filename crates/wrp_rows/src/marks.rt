//! Marks of the junctions of a set.
ghost use Rattle.std.specs.Prelude.{◌≡◌, ℕ, ◌<◌, true, false, length};
ghost use Rattle.wrp_rules.specs.Rules.{all_below};
ghost use Rattle.wrp_rows.specs.Marks.{is_marked, AreMarks, differ};

/// Marks the junctions of a set, and no others.
pub(crate) fn mark(marks: &mut [bool], set: &[u32])
    requires { all_below (length marks.old) set.now ≡ true }
    ensures { AreMarks set.now marks.new }
{
    clear(marks);
    for junction in set {
        marks[*junction as usize] = true;
    }
}

/// Takes every mark away.
pub(crate) fn clear(marks: &mut [bool])
    ensures { (i : ℕ) → is_marked marks.new i ≡ false }
{
    for mark in marks.iter_mut() {
        *mark = false;
    }
}

/// Whether one of two junctions is marked and the other isn't.
pub(crate) fn differ(marks: &[bool], i: u32, j: u32) -> bool
    requires i { i < length marks.now }
    requires j { j < length marks.now }
    ensures { result ≡ differ marks.now i j }
{
    let first = marks[i as usize];
    let second = marks[j as usize];
    (first && !second) || (!first && second)
}
