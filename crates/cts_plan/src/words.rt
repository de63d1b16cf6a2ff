// What a word of a site file has to be at its place, and what it then says.
ghost use Rattle.std.specs.Prelude.{◌≡◌, ◌≤◌, ◌==◌, ◌&&◌, ◌||◌, IfOk, IfSome, IsTrue, false, Some, length, option_map};
ghost use Rattle.std.specs.Int.{is_negative};
ghost use Rattle.std.specs.List.{list_all, slice_index_or};
ghost use Rattle.std.specs.Str.{bytes_eq};
ghost use Rattle.hex.specs.Hex.{is_hex_digit, decode_of};
ghost use Rattle.cts_def.specs.Most.{frame_limit, most_desks};
ghost use Rattle.cts_def.specs.Protocols.{is_layout};
ghost use Rattle.cts_def.specs.Sites.{is_cycle};
ghost use Rattle.cts_plan.specs.Words.{word, is_nil, flag_of, order_of, way_of, way_reads, way_writes, log_layout_of, is_one_of, kind_of, natural};
ghost use Rattle.cts_plan.specs.Words.{port_of, desks_of, size_of, bits_of, per_count_of, max_of, layout_of, cycle_of, signed_of, is_decimal};
ghost use Rattle.cts_plan.specs.Words.{delay_of, hex_digits, are_byte_digits, is_pattern_word, pattern_of, bytes_in, is_empty_pattern};

use cts_base::{Bytes, Decimal, Memory, read_decimal, read_whole, spells};
use cts_bits::Order;
use cts_def::{FRAME_LIMIT, Kind, LEAST_CYCLE, MOST_CYCLE, MOST_DESKS};
use hex::FromHexError;
use std::alloc::Global;

/// The last bit to which a field may reach.
const MOST_BITS: u64 = 8_388_608;

/// Which way a protocol is used.
#[derive(Clone, Copy)]
pub enum Way {
    /// On what is read.
    Read,
    /// On what is written.
    Write,
    /// On both.
    ReadWrite,
}

impl Way {
    /// Whether it is used on what is read.
    pub(crate) fn reads(self) -> bool
        ensures { result ≡ way_reads self }
    {
        match self {
            Way::Read | Way::ReadWrite => true,
            Way::Write => false,
        }
    }

    /// Whether it is used on what is written.
    pub(crate) fn writes(self) -> bool
        ensures { result ≡ way_writes self }
    {
        match self {
            Way::Write | Way::ReadWrite => true,
            Way::Read => false,
        }
    }
}

/// The word at a place, empty where there is none.
pub(crate) fn word(words: &[Bytes], at: usize) -> &[u8]
    ensures { result.now ≡ word words.now at }
{
    match words.get(at) {
        Some(word) => word.as_slice(),
        None => b"",
    }
}

/// Whether a word is `nil`.
pub(crate) fn is_nil(word: &[u8]) -> bool
    ensures { result ≡ is_nil word.now }
{
    word == b"nil".as_slice()
}

/// The flag that a word writes, in any case.
pub(crate) fn flag_of(word: &[u8]) -> Option<bool>
    ensures { result ≡ flag_of word.now }
{
    if spells(word, b"TRUE") {
        Some(true)
    } else if spells(word, b"FALSE") {
        Some(false)
    } else {
        None
    }
}

/// The order of bytes that a word names.
pub(crate) fn order_of(word: &[u8]) -> Option<Order>
    ensures { result ≡ order_of word.now }
{
    if word == b"BIG_ENDIAN".as_slice() {
        Some(Order::Big)
    } else if word == b"LITTLE_ENDIAN".as_slice() {
        Some(Order::Little)
    } else {
        None
    }
}

/// Which way a word says that a protocol is used.
pub(crate) fn way_of(word: &[u8]) -> Option<Way>
    ensures { result ≡ way_of word.now }
{
    if word == b"READ".as_slice() {
        Some(Way::Read)
    } else if word == b"WRITE".as_slice() {
        Some(Way::Write)
    } else if word == b"READ_WRITE".as_slice() {
        Some(Way::ReadWrite)
    } else {
        None
    }
}

/// The layout in which logs are written that a word says: `2` or `4`, in no other spelling.
pub(crate) fn log_layout_of(word: &[u8]) -> Option<u32>
    ensures value { result ≡ log_layout_of word.now }
    ensures layout { IfSome result (λ n. IsTrue (is_layout n)) }
{
    if word == b"2".as_slice() {
        Some(2)
    } else if word == b"4".as_slice() {
        Some(4)
    } else {
        None
    }
}

#[tactic(auto, unfolding(crate::specs::Words::is_one_of))]
fn is_one_of(short: &[u8], class: &[u8], file: &[u8], word: &[u8]) -> bool
    ensures { result ≡ is_one_of short.now class.now file.now word.now }
{
    spells(word, short) || spells(word, class) || spells(word, file)
}

/// The protocol that a word names, in any case.
pub(crate) fn kind_of(word: &[u8]) -> Option<Kind>
    ensures { result ≡ kind_of word.now }
{
    if is_one_of(b"BURST", b"BURSTPROTOCOL", b"BURST_PROTOCOL.RB", word) {
        Some(Kind::Burst)
    } else if is_one_of(b"FIXED", b"FIXEDPROTOCOL", b"FIXED_PROTOCOL.RB", word) {
        Some(Kind::Fixed)
    } else if is_one_of(b"LENGTH", b"LENGTHPROTOCOL", b"LENGTH_PROTOCOL.RB", word) {
        Some(Kind::Length)
    } else if is_one_of(
        b"TERMINATED",
        b"TERMINATEDPROTOCOL",
        b"TERMINATED_PROTOCOL.RB",
        word,
    ) {
        Some(Kind::Terminated)
    } else if is_one_of(
        b"PREIDENTIFIED",
        b"PREIDENTIFIEDPROTOCOL",
        b"PREIDENTIFIED_PROTOCOL.RB",
        word,
    ) {
        Some(Kind::Preidentified)
    } else {
        None
    }
}

/// The whole number that a word writes, where it lies between `least` and `most`.
pub(crate) fn natural(least: u64, most: u64, word: &[u8]) -> Option<u64>
    ensures value { result ≡ natural least most word.now }
    ensures least { IfSome result (λ n. least ≤ n) }
    ensures most { IfSome result (λ n. n ≤ most) }
{
    let number = read_whole(word)?;
    if number < 0 {
        return None;
    }
    let size = number.unsigned_abs();
    if size < u128::from(least) || u128::from(most) < size {
        return None;
    }
    Some(size as u64)
}

/// The port that a word writes.
pub(crate) fn port_of(word: &[u8]) -> Option<u16>
    ensures value { result ≡ port_of word.now }
    ensures some { IfSome result (λ n. 1 ≤ n) }
{
    let port = natural(1, 65535, word)?;
    Some(port as u16)
}

/// How many desks a word asks for.
pub(crate) fn desks_of(word: &[u8]) -> Option<u32>
    ensures value { result ≡ desks_of word.now }
    ensures least { IfSome result (λ n. 1 ≤ n) }
    ensures most { IfSome result (λ n. n ≤ most_desks) }
{
    let desks = natural(1, u64::from(MOST_DESKS), word)?;
    Some(desks as u32)
}

/// A number of bytes within the greatest frame.
pub(crate) fn size_of(word: &[u8]) -> Option<u32>
    ensures value { result ≡ size_of word.now }
    ensures most { IfSome result (λ n. n ≤ frame_limit) }
{
    let size = natural(0, FRAME_LIMIT as u64, word)?;
    Some(size as u32)
}

/// An offset or a size in bits.
pub(crate) fn bits_of(word: &[u8]) -> Option<u32>
    ensures value { result ≡ bits_of word.now }
    ensures most { IfSome result (λ n. n ≤ 8388608) }
{
    let bits = natural(0, MOST_BITS, word)?;
    Some(bits as u32)
}

/// How many bytes one count stands for.
pub(crate) fn per_count_of(word: &[u8]) -> Option<u32>
    ensures value { result ≡ per_count_of word.now }
    ensures least { IfSome result (λ n. 1 ≤ n) }
    ensures most { IfSome result (λ n. n ≤ 65535) }
{
    let count = natural(1, 65535, word)?;
    Some(count as u32)
}

/// The greatest count.
pub(crate) fn max_of(word: &[u8]) -> Option<u64>
    ensures { result ≡ max_of word.now }
{
    natural(0, u64::MAX, word)
}

/// The layout of heads that a word says as a number.
pub(crate) fn layout_of(word: &[u8]) -> Option<u32>
    ensures value { result ≡ layout_of word.now }
    ensures layout { IfSome result (λ n. IsTrue (is_layout n)) }
{
    let number = natural(2, 4, word)?;
    if number == 2 || number == 4 {
        Some(number as u32)
    } else {
        None
    }
}

/// The greatest size of a part of a log.
pub(crate) fn cycle_of(word: &[u8]) -> Option<u64>
    ensures value { result ≡ cycle_of word.now }
    ensures cycle { IfSome result (λ n. IsTrue (is_cycle (Some n))) }
{
    natural(LEAST_CYCLE, MOST_CYCLE, word)
}

/// A whole number of 32 bits.
pub(crate) fn signed_of(word: &[u8]) -> Option<i32>
    ensures { result ≡ signed_of word.now }
{
    let number = read_whole(word)?;
    if number < -2_147_483_648 || 2_147_483_647 < number {
        return None;
    }
    Some(number as i32)
}

/// Whether a word is a decimal.
pub(crate) fn is_decimal(word: &[u8]) -> bool
    ensures { result ≡ is_decimal word.now }
{
    read_decimal(word).is_ok()
}

/// The seconds that a word writes, not below 0.
pub(crate) fn delay_of(word: &[u8]) -> Option<Decimal>
    ensures value { result ≡ delay_of word.now }
    ensures sign { IfSome result (λ d. is_negative d.parts ≡ false) }
{
    match read_decimal(word) {
        Ok(delay) => { if delay.parts < 0 { None } else { Some(delay) } }
        Err(_) => None,
    }
}

/// What follows a lower-case `0x`.
fn hex_digits(word: &[u8]) -> Option<&[u8]>
    ensures { option_map (λ d. d.now) result ≡ hex_digits word.now }
{
    if 2 <= word.len() && word[0] == b'0' && word[1] == b'x' {
        Some(&word[2..])
    } else {
        None
    }
}

fn is_hex_digit(digit: u8) -> bool
    ensures { result ≡ is_hex_digit digit }
{
    digit.is_ascii_hexdigit()
}

fn are_hex_digits(digits: &[u8]) -> bool
    ensures { result ≡ list_all is_hex_digit digits.now }
{
    digits.iter().all(|digit| is_hex_digit(*digit))
}

fn are_byte_digits(digits: Option<&[u8]>) -> bool
    ensures { result ≡ are_byte_digits (option_map (λ d. d.now) digits.entry) }
{
    match digits {
        Some(digits) => digits.len() % 2 == 0 && digits.len() <= 128 && are_hex_digits(digits),
        None => false,
    }
}

/// Whether a word is a pattern of at most 64 bytes, or `nil`.
pub(crate) fn is_pattern_word(word: &[u8]) -> bool
    ensures { result ≡ is_pattern_word word.now }
{
    is_nil(word) || are_byte_digits(hex_digits(word))
}

fn bytes_of(alloc: Global, digits: &[u8]) -> Result<Bytes, Memory>
    ensures value { IfOk result (λ b. b ≡ bytes_in (Some digits.now)) }
    ensures few { IfOk result (λ b. length b ≤ 64) }
{
    match hex::decode(alloc, digits) {
        Ok(bytes) => {
            if bytes.len() <= 64 {
                Ok(Bytes::of(bytes))
            } else {
                Bytes::copy(alloc, b"")
            }
        }
        Err(FromHexError::OutOfMemory) => Err(Memory),
        Err(_) => Bytes::copy(alloc, b""),
    }
}

/// The bytes of a pattern, none of `nil`. A word that is no pattern gives none.
pub(crate) fn pattern_of(alloc: Global, word: &[u8]) -> Result<Bytes, Memory>
    ensures value { IfOk result (λ b. b ≡ pattern_of word.now) }
    ensures few { IfOk result (λ b. length b ≤ 64) }
{
    match hex_digits(word) {
        Some(digits) => bytes_of(alloc, digits),
        None => Bytes::copy(alloc, b""),
    }
}

/// Whether a word is `0x` without digits.
pub(crate) fn is_empty_pattern(word: &[u8]) -> bool
    ensures { result ≡ is_empty_pattern word.now }
{
    word == b"0x".as_slice()
}
