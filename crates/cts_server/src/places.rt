// The places of devices, and lists whose first element is taken.
ghost use Rattle.std.specs.Prelude.{◌≡◌, ◌+◌, ◌<◌, ◌∷◌, Some, drop, length, slice_set, vec_capacity, vec_len};
ghost use Rattle.std.specs.List.{AllByRecursion};
ghost use Rattle.cts_server.specs.Places.{IsThere};

/// The first of them, which leaves them.
pub(crate) fn take_first<X>(items: &mut Vec<X>) -> X
    requires { 0 < vec_len items.old }
    ensures items { items.old.items ≡ result ∷ items.new.items }
    ensures room { vec_capacity items.new ≡ vec_capacity items.old }
{
    items.remove(0)
}

/// The device in a place, which leaves it.
pub(crate) fn take_at<X: Drop>(places: &mut [Option<X>], place: usize) -> X
    requires within { place < length places.old }
    requires there { AllByRecursion IsThere (drop place places.old) }
    ensures stood { drop place places.old ≡ Some result ∷ drop (place + 1) places.old }
    ensures others { drop (place + 1) places.new ≡ drop (place + 1) places.old }
    ensures long { length places.new ≡ length places.old }
{
    match places[place].take() {
        Some(device) => device,
        None => unreachable!(),
    }
}

/// A device comes into the place of this number, which is that of the next place then.
pub(crate) fn put_next<X: Drop>(places: &mut [Option<X>], place: &mut usize, device: X)
    requires within { place.old < length places.old }
    ensures places { places.new ≡ slice_set places.old place.old (Some device) }
    ensures place { place.new ≡ place.old + 1 }
{
    places[*place] = Some(device);
    *place += 1;
}
