// Lists that take no more memory than they need.
ghost use Rattle.std.specs.Prelude.{◌≡◌};

/// The same list, without room for more. It takes no memory.
pub fn fit<T>(list: Vec<T>) -> Vec<T>
    ensures { result.items ≡ list.items }
{
    let mut list = list;
    list.shrink_to_fit();
    list
}
