// The statements of a site file, and which words follow their keywords.
ghost use Rattle.std.specs.Prelude.{◌≡◌, ◌+◌, length, drop, map, zip};
ghost use Rattle.std.specs.List.{list_any};
ghost use Rattle.cts_plan.specs.Words.{is_nil};
ghost use Rattle.cts_reader.specs.Words.{keyword_in};
ghost use Rattle.cts_plan.specs.Forms.{keyword_of, role_of, opening_fields, head_fields, parameter_fields, required, takes_protocol, has_protocol};
ghost use Rattle.cts_plan.specs.Forms.{protocol_of, parameters, fields_of, is_other_choice, is_bad_name, is_no_number, is_empty_sync, fails};
ghost use Rattle.cts_plan.specs.Forms.{any_field};

use crate::words::{
    bits_of, cycle_of, delay_of, desks_of, flag_of, is_decimal, is_empty_pattern, is_nil,
    is_pattern_word, kind_of, layout_of, log_layout_of, max_of, order_of, per_count_of, port_of,
    signed_of, size_of, way_of, word,
};
use cts_base::{Bytes, is_name};
use cts_def::Kind;
use cts_reader::{Spelled, keyword_in};

/// The keyword of a statement.
#[derive(Clone, Copy)]
pub enum Keyword {
    /// A title, taken without effect.
    Title,
    /// The port of the desks.
    Port,
    /// The number of desks.
    Desks,
    /// The layout in which logs are written.
    LogLayout,
    /// The greatest size of a part of a log.
    LogCycle,
    /// Opens an interface.
    Interface,
    /// Maps a target to the interface.
    Target,
    /// Adds a protocol.
    Protocol,
    /// How long the interface waits before it connects again.
    ReconnectDelay,
    /// The interface does not connect again.
    DontReconnect,
    /// The interface is logged.
    Log,
    /// The interface is not logged.
    DontLog,
    /// Opens a router.
    Router,
    /// Routes an interface to the router.
    Route,
}

/// What the file name of an INTERFACE or ROUTER statement makes of it.
#[derive(Clone, Copy)]
pub enum Role {
    /// It connects.
    Client,
    /// It accepts a connection.
    Server,
}

/// What a word of a statement has to be.
#[derive(Clone, Copy)]
pub enum Field {
    /// Any word.
    Text,
    /// A name.
    Name,
    /// `CTS_API`.
    ApiWord,
    /// `DEFAULT`.
    DefaultWord,
    /// `READ`, `WRITE` or `READ_WRITE`.
    Way,
    /// `true` or `false`, in any case.
    Flag,
    /// `BIG_ENDIAN` or `LITTLE_ENDIAN`.
    Endianness,
    /// A port.
    Port,
    /// A port or `nil`.
    PortOrNil,
    /// A number of desks.
    Desks,
    /// `2` or `4`.
    LogLayout,
    /// The greatest size of a part of a log.
    Cycle,
    /// A decimal or `nil`.
    Timeout,
    /// A decimal of at least 0.
    Delay,
    /// A number of bytes within the greatest frame.
    Size,
    /// An offset or size in bits.
    Bits,
    /// A whole number of 32 bits.
    ValueOffset,
    /// How many bytes one count stands for.
    PerCount,
    /// The greatest count, or `nil`.
    Max,
    /// A layout of heads: the number 2 or 4.
    Layout,
    /// A sync pattern: not `0x`.
    Sync,
    /// A pattern.
    Pattern,
    /// A pattern that has bytes.
    Termination,
}

/// All keywords.
const KEYWORDS: [Spelled<Keyword>; 14] = [
    Spelled {
        text: b"TITLE",
        keyword: Keyword::Title,
    },
    Spelled {
        text: b"PORT",
        keyword: Keyword::Port,
    },
    Spelled {
        text: b"DESKS",
        keyword: Keyword::Desks,
    },
    Spelled {
        text: b"LOG_LAYOUT",
        keyword: Keyword::LogLayout,
    },
    Spelled {
        text: b"LOG_CYCLE",
        keyword: Keyword::LogCycle,
    },
    Spelled {
        text: b"INTERFACE",
        keyword: Keyword::Interface,
    },
    Spelled {
        text: b"TARGET",
        keyword: Keyword::Target,
    },
    Spelled {
        text: b"PROTOCOL",
        keyword: Keyword::Protocol,
    },
    Spelled {
        text: b"RECONNECT_DELAY",
        keyword: Keyword::ReconnectDelay,
    },
    Spelled {
        text: b"DONT_RECONNECT",
        keyword: Keyword::DontReconnect,
    },
    Spelled {
        text: b"LOG",
        keyword: Keyword::Log,
    },
    Spelled {
        text: b"DONT_LOG",
        keyword: Keyword::DontLog,
    },
    Spelled {
        text: b"ROUTER",
        keyword: Keyword::Router,
    },
    Spelled {
        text: b"ROUTE",
        keyword: Keyword::Route,
    },
];

/// The keyword that a word is, in any case.
pub(crate) fn keyword_of(word: &[u8]) -> Option<Keyword>
    ensures { result ≡ keyword_of word.now }
{
    keyword_in(&KEYWORDS, word)
}

/// What the file name makes of a statement, where it stands in the table for its keyword.
pub(crate) fn role_of(keyword: Keyword, words: &[Bytes]) -> Option<Role>
    ensures { result ≡ role_of keyword words.now }
{
    let file = word(words, 1);
    match keyword {
        Keyword::Interface => {
            if file == b"tcpip_client_interface.rb".as_slice() {
                Some(Role::Client)
            } else if file == b"tcpip_server_interface.rb".as_slice() {
                Some(Role::Server)
            } else {
                None
            }
        }
        Keyword::Router => {
            if file == b"tcpip_server_interface.rb".as_slice() {
                Some(Role::Server)
            } else {
                None
            }
        }
        _ => None,
    }
}

fn opening_fields(role: Option<Role>) -> &'static [Field]
    ensures { result.now ≡ opening_fields role }
{
    match role {
        None => &[Field::Name, Field::Text],
        Some(Role::Client) => &[
            Field::Name,
            Field::Text,
            Field::Text,
            Field::PortOrNil,
            Field::PortOrNil,
            Field::Timeout,
            Field::Timeout,
        ],
        Some(Role::Server) => &[
            Field::Name,
            Field::Text,
            Field::PortOrNil,
            Field::PortOrNil,
            Field::Timeout,
            Field::Timeout,
        ],
    }
}

/// The words after the keyword, before a protocol.
#[tactic(auto, unfolding(crate::specs::Forms::head_fields))]
pub(crate) fn head_fields(keyword: Keyword, words: &[Bytes]) -> &'static [Field]
    ensures { result.now ≡ head_fields keyword words.now }
{
    match keyword {
        Keyword::Title => &[Field::Text],
        Keyword::Port => &[Field::ApiWord, Field::Port],
        Keyword::Desks => &[Field::Desks],
        Keyword::LogLayout => &[Field::LogLayout],
        Keyword::LogCycle => &[Field::Cycle],
        Keyword::Target => &[Field::Name],
        Keyword::Protocol => &[Field::Way],
        Keyword::ReconnectDelay => &[Field::Delay],
        Keyword::DontReconnect => &[],
        Keyword::Log => &[Field::DefaultWord],
        Keyword::DontLog => &[],
        Keyword::Route => &[Field::Text],
        Keyword::Interface => opening_fields(role_of(Keyword::Interface, words)),
        Keyword::Router => opening_fields(role_of(Keyword::Router, words)),
    }
}

/// The parameters of a protocol, in order.
pub(crate) fn parameter_fields(kind: Kind) -> &'static [Field]
    ensures { result.now ≡ parameter_fields kind }
{
    match kind {
        Kind::Burst => &[Field::Size, Field::Sync, Field::Flag],
        Kind::Fixed => &[
            Field::Size,
            Field::Size,
            Field::Sync,
            Field::Flag,
            Field::Flag,
            Field::Flag,
        ],
        Kind::Length => &[
            Field::Bits,
            Field::Bits,
            Field::ValueOffset,
            Field::PerCount,
            Field::Endianness,
            Field::Size,
            Field::Sync,
            Field::Max,
            Field::Flag,
        ],
        Kind::Terminated => &[
            Field::Pattern,
            Field::Termination,
            Field::Flag,
            Field::Size,
            Field::Sync,
            Field::Flag,
        ],
        Kind::Preidentified => &[Field::Sync, Field::Max, Field::Layout],
    }
}

/// How many parameters are required.
pub(crate) fn required(kind: Kind) -> usize
    ensures { result ≡ required kind }
{
    match kind {
        Kind::Fixed => 1,
        Kind::Terminated => 2,
        Kind::Burst | Kind::Length | Kind::Preidentified => 0,
    }
}

fn takes_protocol(keyword: Keyword, words: &[Bytes]) -> bool
    ensures { result ≡ takes_protocol keyword words.now }
{
    match keyword {
        Keyword::Protocol => true,
        _ => role_of(keyword, words).is_some(),
    }
}

/// Whether a protocol's name stands after the head.
pub(crate) fn has_protocol(keyword: Keyword, words: &[Bytes]) -> bool
    ensures { result ≡ has_protocol keyword words.now }
{
    takes_protocol(keyword, words) && head_fields(keyword, words).len() < words.len()
}

/// The protocol of a statement, if it has one of the five.
#[tactic(auto, unfolding(crate::specs::Forms::protocol_of))]
pub(crate) fn protocol_of(keyword: Keyword, words: &[Bytes]) -> Option<Kind>
    ensures { result ≡ protocol_of keyword words.now }
{
    if has_protocol(keyword, words) {
        kind_of(word(words, head_fields(keyword, words).len()))
    } else {
        None
    }
}

/// The words after the protocol's name.
#[tactic(auto, unfolding(crate::specs::Forms::parameters))]
pub(crate) fn parameters(keyword: Keyword, words: &[Bytes]) -> &[Bytes]
    ensures { result.now ≡ parameters keyword words.now }
{
    match words.get(head_fields(keyword, words).len() + 1..) {
        Some(rest) => rest,
        None => &[],
    }
}

fn fields_of(kind: Option<Kind>) -> &'static [Field]
    ensures { result.now ≡ fields_of kind }
{
    match kind {
        Some(kind) => parameter_fields(kind),
        None => &[],
    }
}

impl Field {
    /// Whether a word is a fixed word that is none of the field's choices.
    pub(crate) fn is_other_choice(self, word: &[u8]) -> bool
        ensures { result ≡ is_other_choice self word.now }
    {
        match self {
            Field::ApiWord => word != b"CTS_API".as_slice(),
            Field::DefaultWord => word != b"DEFAULT".as_slice(),
            Field::Way => way_of(word).is_none(),
            Field::Flag => flag_of(word).is_none(),
            Field::Endianness => order_of(word).is_none(),
            Field::LogLayout => log_layout_of(word).is_none(),
            _ => false,
        }
    }

    /// Whether a word is no name where one is asked for.
    pub(crate) fn is_bad_name(self, word: &[u8]) -> bool
        ensures { result ≡ is_bad_name self word.now }
    {
        match self {
            Field::Name => !is_name(word),
            _ => false,
        }
    }

    /// Whether a word is a number or pattern of another form, or out of its bounds.
    pub(crate) fn is_no_number(self, word: &[u8]) -> bool
        ensures { result ≡ is_no_number self word.now }
    {
        match self {
            Field::Port => port_of(word).is_none(),
            Field::PortOrNil => !is_nil(word) && port_of(word).is_none(),
            Field::Desks => desks_of(word).is_none(),
            Field::Cycle => cycle_of(word).is_none(),
            Field::Timeout => !is_nil(word) && !is_decimal(word),
            Field::Delay => delay_of(word).is_none(),
            Field::Size => size_of(word).is_none(),
            Field::Bits => bits_of(word).is_none(),
            Field::ValueOffset => signed_of(word).is_none(),
            Field::PerCount => per_count_of(word).is_none(),
            Field::Max => !is_nil(word) && max_of(word).is_none(),
            Field::Layout => layout_of(word).is_none(),
            Field::Sync | Field::Pattern | Field::Termination => !is_pattern_word(word),
            _ => false,
        }
    }

    /// Whether a word is a sync `0x`, or a read termination of no bytes.
    pub(crate) fn is_empty_sync(self, word: &[u8]) -> bool
        ensures { result ≡ is_empty_sync self word.now }
    {
        match self {
            Field::Sync => is_empty_pattern(word),
            Field::Termination => is_empty_pattern(word) || is_nil(word),
            _ => false,
        }
    }
}

/// What is asked of a word at its field.
#[derive(Clone, Copy)]
pub enum Check {
    /// A fixed word is one of its field's choices.
    Choice,
    /// A name is a name.
    Name,
    /// A number or pattern has its form and is within its bounds.
    Number,
    /// A pattern that has to have bytes has some.
    Bytes,
}

impl Check {
    /// Whether a word fails it at the field.
    fn fails(self, field: Field, word: &[u8]) -> bool
        ensures { result ≡ fails self field word.now }
    {
        match self {
            Check::Choice => field.is_other_choice(word),
            Check::Name => field.is_bad_name(word),
            Check::Number => field.is_no_number(word),
            Check::Bytes => field.is_empty_sync(word),
        }
    }

    // Whether one of the words fails it at its field.
    fn any_fails(self, fields: &[Field], words: &[Bytes]) -> bool
        ensures { result ≡ list_any (λ p. fails self p.0 p.1) (zip fields.now words.now) }
    {
        fields
            .iter()
            .zip(words)
            .any(|(field, word)| self.fails(*field, word.as_slice()))
    }

    /// Whether a word of a statement fails it.
    pub(crate) fn fails_in(self, keyword: Keyword, words: &[Bytes]) -> bool
        ensures { result ≡ any_field (fails self) keyword words.now }
    {
        self.any_fails(head_fields(keyword, words), words)
            || self.any_fails(
                fields_of(protocol_of(keyword, words)),
                parameters(keyword, words),
            )
    }
}
