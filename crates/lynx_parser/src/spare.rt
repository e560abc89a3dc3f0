//! Letting spare room go.

ghost use Rattle.std.specs.Prelude.{◌≡◌};

/// Lets the room behind a list go that was read, where it is more than an eighth of the list. A block that is nearly full stays as it is: to
/// make it a page smaller gains little, and the C library would take the next such block from the system again.
pub fn without_spare<T>(list: &mut Vec<T>)
    ensures { list.new.items ≡ list.old.items }
{
    if list.capacity() - list.len() > list.len() / 8 {
        list.shrink_to_fit();
    }
}
