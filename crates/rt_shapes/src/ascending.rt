//! Ascending lists of numbers, each once.
ghost use Rattle.std.specs.Prelude.{◌≡◌, OnOk};
ghost use Rattle.rt_shapes.specs.Polygons.{IsAscending, with_number, toggled};

use rt_base::Memory;

/// Puts a number among these where it isn't yet.
pub fn put(numbers: &mut Vec<i64>, z: i64) -> Result<(), Memory>
    requires { IsAscending numbers.old.items }
    ensures exact { OnOk result (numbers.new.items ≡ with_number z numbers.old.items) }
    ensures ascending { OnOk result (IsAscending numbers.new.items) }
{
    if let Err(at) = numbers.binary_search(&z) {
        numbers.insert(at, z)?;
    }
    Ok(())
}

/// Puts a number among these where it isn't, and takes it out where it is.
pub fn toggle(numbers: &mut Vec<i64>, z: i64) -> Result<(), Memory>
    requires { IsAscending numbers.old.items }
    ensures exact { OnOk result (numbers.new.items ≡ toggled z numbers.old.items) }
    ensures ascending { OnOk result (IsAscending numbers.new.items) }
{
    match numbers.binary_search(&z) {
        Ok(at) => {
            numbers.remove(at);
        }
        Err(at) => numbers.insert(at, z)?,
    }
    Ok(())
}
