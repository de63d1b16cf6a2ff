//! Laws of shown values: that digits mean their number, and which segment of a conversion is used.
//!
//! They are said of the definitions that the contracts of `cts_conv` cite, so they are laws of what it shows.
#![tactic(auto)]

ghost use Rattle.cts_conv_laws.specs.Blocks.{PlainTextsMeanTheirBytes};
ghost use Rattle.cts_conv_laws.specs.Numerals.{DecimalTextsMeanTheirNumber, DigitsMeanTheirNumber, FixedDigitsMeanTheirNumber, NoOtherDigitsMeanIt};
ghost use Rattle.cts_conv_laws.specs.Numerals.{PlainWholesMeanTheirNumber, WholeTextsMeanTheirNumber};
ghost use Rattle.cts_conv_laws.specs.Uses.{SegmentsConvert, SomeSegmentIsUsed};

use cts_def::Item;

/// The digits of a number in a base from 2 to 16 are read back as the number: they are digits of that base, with letters in the
/// case that is asked for, and none but a single zero begins with a zero. No other text is so read.
pub fn digits_mean_their_number()
    ensures read { DigitsMeanTheirNumber }
    ensures alone { NoOtherDigitsMeanIt }
{}

/// A whole number that is shown, by a format of `d`, `i`, `u`, `x`, `X`, `o` or `b` or without one, is its sign and the digits of
/// its magnitude, in the base and letter case of the format, or in base 10. A format adds only zeros between the two or spaces
/// round them, and no more of these than its width asks for.
pub fn whole_texts_mean_their_number()
    ensures formatted { WholeTextsMeanTheirNumber }
    ensures plain { PlainWholesMeanTheirNumber }
{}

/// A number of units of 10^-k is shown by `f` as the digits of its whole part, a point, and exactly k digits, which all together
/// are read as that number of units; for k of 0 there is no point. A decimal is shown as the nearest such number of units, with
/// its sign, and without `-` where that is zero.
pub fn decimal_texts_mean_their_number()
    ensures digits { FixedDigitsMeanTheirNumber }
    ensures formatted { DecimalTextsMeanTheirNumber }
{}

/// The plain text of a block is read as its bytes where it is given for a BLOCK, and the text of a STRING's bytes as those where
/// it is given for a STRING.
pub fn plain_texts_mean_their_bytes()
    ensures { PlainTextsMeanTheirBytes }
{}

/// Of segments, if there is one at least, one is used for each number: one with the greatest bound that is at most the number, and
/// below all bounds one with the least.
pub fn some_segment_is_used()
    ensures { SomeSegmentIsUsed }
{}

/// A number of an item with segments is converted by one of them, the nearest. The body looks at the item: so the proof learns that
/// it has segments where its conversion is of that kind.
pub fn segments_convert(item: &Item)
    ensures { SegmentsConvert item.now }
{
    let _ = &item.conversion;
}
