// What holds of the definitions that the contract cites.
ghost use Rattle.cts_defstatement.specs.Words.{DetailsAreOfTheirWords, ItemsAreOfTheirWords};

/// Each thing that a statement says of an item is said by its own word: its name, offset, size, type, id, least and greatest
/// value, default and order, and the words of each detail.
pub fn statements_say_their_words()
    ensures items { ItemsAreOfTheirWords }
    ensures details { DetailsAreOfTheirWords }
{}
