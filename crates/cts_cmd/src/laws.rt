// What holds of the definitions that the contracts cite. Each is the contract of a function that does nothing.
ghost use Rattle.cts_cmd.specs.Laws.{InjectionsHaveOneOutcome, InjectionsStandOnBytes, NumbersStand, OtherBitsStay, RawValuesAreOfTheirKind};
ghost use Rattle.cts_cmd.specs.Laws.{RequestsHaveOneCommand, TextsAreReadInOneWay, TextsAreReadOrFail};

/// A text asks for one request alone, or fails at one place alone for one cause, and never both.
pub fn a_text_asks_for_one_request_or_fails_once()
    ensures { TextsAreReadInOneWay }
{}

/// Each text asks for something or fails somewhere.
pub fn a_text_is_a_request_or_fails()
    ensures { TextsAreReadOrFail }
{}

/// A request is built to one command alone, of one number and the same bytes.
pub fn request_has_one_command()
    ensures { RequestsHaveOneCommand }
{}

/// What is written for a parameter stands in the command, but for the bits to which a later parameter is written: a bit to which
/// none of the items is written stays, and a number that shares no bit with what is written after it stands in its field.
pub fn fields_stand_unless_written_over()
    ensures bits { OtherBitsStay }
    ensures numbers { NumbersStand }
{}

/// A raw value that is injected for an item is no text for a number, with states or without, no number for a text or block, and none of an
/// item without a length of its own.
pub fn raw_values_are_of_their_kind()
    ensures { RawValuesAreOfTheirKind }
{}

/// An injection is written over zeros, or over the bytes that stand, filled up with zeros and never cut, and leaves no choice for the
/// bytes.
pub fn injections_have_one_outcome()
    ensures under { InjectionsStandOnBytes }
    ensures one { InjectionsHaveOneOutcome }
{}
