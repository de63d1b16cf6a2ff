//! The end of a list.

ghost use Rattle.std.specs.Prelude.{◌≡◌};
ghost use Rattle.std.specs.Option.{option_copied};
ghost use Rattle.cts_words.specs.Blocks.{last_of};

/// The last one, to which further lines belong, if there is one.
pub fn last<T>(items: &[T]) -> Option<&T>
    ensures { option_copied result ≡ last_of items.now }
{
    match items.split_last() {
        Some((last, _)) => Some(last),
        None => None,
    }
}
