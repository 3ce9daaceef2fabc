// The lists that are lent to a call.

ghost use Rattle.std.specs.Prelude.{◌≡◌, take, set};

// The first n places of a list, or all of it.
pub fn front<T>(list: &[T], n: usize) -> &[T]
    ensures { result.now ≡ take n list.now }
{
    &list[..n.min(list.len())]
}

// The same to be written. That the list ends as what is left there, with its other places as they were, is not said: no proof is found of that clause.
pub fn front_mut<T>(list: &mut [T], n: usize) -> &mut [T]
    ensures { result.now ≡ take n list.old }
{
    let m = n.min(list.len());
    &mut list[..m]
}

// The list with v at place k, unchanged where it has no such place.
pub fn put<T: Copy>(list: &mut [T], k: usize, v: T)
    ensures { list.new ≡ set list.old k v }
{
    if k < list.len() {
        list[k] = v;
    }
}
