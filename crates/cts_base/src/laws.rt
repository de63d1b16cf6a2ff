// Laws of the definitions that the contracts cite. Each is the contract of a function that does nothing.
ghost use Rattle.std.specs.Prelude.{◌≡◌, ℕ, ◌+◌, ◌*◌, ◌^◌, ◌<◌, List, ◌∷◌, length, ℤ, unsigned_abs, Some, Ok, IsTrue};
ghost use Rattle.std.specs.Char.{digit_value};
ghost use Rattle.std.specs.Fmt.{signed_decimal};
ghost use Rattle.std.specs.Str.Parse.{digits_value};
ghost use Rattle.cts_base.specs.Decimals.{decimal_of};
ghost use Rattle.cts_base.specs.Prints.{PrintsDecimal, decimal_text};
ghost use Rattle.cts_base.specs.Wholes.{is_whole_size, whole_of};
ghost use Rattle.cts_base.specs.declared.decimal.Decimal.{Decimal};

/// A digit counts as many times as its place says: the number of some digits is the sum of each digit times the base to
/// the power of how many digits follow.
pub fn digits_are_weighed_by_place()
    ensures { (base digit : ℕ) (digits : List ℕ)
        → digits_value base (digit ∷ digits)
        ≡ digit_value digit * base ^ length digits + digits_value base digits }
{}

/// A number of a whole number's size is read from its own print.
pub fn printed_whole_is_read()
    ensures { (number : ℤ) → IsTrue (is_whole_size number)
        → whole_of (signed_decimal number) ≡ Some number }
{}

/// A decimal with at most 25 digits before the point is read from its own print.
pub fn printed_decimal_is_read()
    ensures { (value : Decimal) → unsigned_abs value.parts < 10 ^ 37
        → decimal_of (decimal_text value.parts) ≡ Ok value }
{}

/// One text alone is the print of a decimal.
pub fn decimal_has_one_print()
    ensures { (parts : ℤ) (first second : List ℕ)
        → PrintsDecimal parts first → PrintsDecimal parts second → first ≡ second }
{}
