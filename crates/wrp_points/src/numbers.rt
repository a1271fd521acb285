//! The numbers of a point in a table with an entry for each arc.
ghost use Rattle.std.specs.Prelude.{length, []};
ghost use Rattle.wrp_points.specs.Points.{AreNumbers, HasNumbers};

/// Puts the numbers of a point into a table of zeros.
pub(crate) fn put_numbers(numbers: &[(u32, u128)], table: &mut [u128])
    requires numbers { AreNumbers (length table.old) numbers.now }
    requires clear { HasNumbers [] table.old }
    ensures { HasNumbers numbers.now table.new }
{
    for pair in numbers {
        let (arc, number) = *pair;
        table[arc as usize] += number;
    }
}

/// Takes them out again.
pub(crate) fn clear_numbers(numbers: &[(u32, u128)], table: &mut [u128])
    requires numbers { AreNumbers (length table.old) numbers.now }
    requires full { HasNumbers numbers.now table.old }
    ensures { HasNumbers [] table.new }
{
    for pair in numbers {
        table[pair.0 as usize] = 0;
    }
}
