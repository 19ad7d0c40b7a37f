//! The types of packets, and what the protocol says of each: its number, its way, its capability, its length.

ghost use Rattle.std.specs.Prelude.{◌≡◌, ◌<◌};
ghost use Rattle.redir_wire.specs.Table.{of_type, with, plain_row, data_row, row_of, plain_numbered, data_numbered, kind_numbered, goes, has_wanted, has_more, is_longer, plain_name, data_name, fixed_length, has_length, is_left_out};
ghost use Rattle.redir_wire.specs.Small.{IsSmall};

use crate::packet::{Caps, MAX_HELLO_WORDS, Way};
use crate::types::{data_types, plain_types};

/// The number of `usb_redir_hello`.
pub const HELLO: u32 = 0;
/// The number of `usb_redir_interface_info`.
pub const INTERFACE_INFO: u32 = 4;
/// The first number of the types that move data.
pub const FIRST_DATA: u32 = 100;

/// The types of packets that move no data of a transfer ("Control packets").
#[derive(Clone, Copy)]
pub enum PlainKind {
    Hello,
    Connect,
    Disconnect,
    Reset,
    InterfaceInfo,
    EpInfo,
    SetConfiguration,
    GetConfiguration,
    ConfigurationStatus,
    SetAlt,
    GetAlt,
    AltStatus,
    StartIso,
    StopIso,
    IsoStatus,
    StartInterrupt,
    StopInterrupt,
    InterruptStatus,
    Cancel,
    DisconnectAck,
}

/// The types of packets that move data ("Data packets").
#[derive(Clone, Copy)]
pub enum DataKind {
    Control,
    Bulk,
    Iso,
    Interrupt,
}

/// The types of packets.
#[derive(Clone, Copy)]
pub enum Kind {
    Plain(PlainKind),
    Carrying(DataKind),
}

/// Fields that a packet has only with a capability, behind its other fixed fields.
#[derive(Clone, Copy)]
pub struct More {
    pub capability: Caps,
    pub bytes: u32,
}

/// What follows a packet's fixed fields.
#[derive(Clone, Copy)]
pub enum Tail {
    Nothing,
    /// At most 32 words.
    Words,
    /// The data of a transfer.
    Data,
}

/// What the protocol says of a type.
#[derive(Clone, Copy)]
pub struct TypeRow {
    pub number: u32,
    /// The one way that it goes, or none where it goes both.
    pub way: Option<Way>,
    /// The capability without which it isn't sent.
    pub wanted: Option<Caps>,
    /// How many bytes its fixed fields have, with no capability.
    pub fixed: u32,
    pub more: Option<More>,
    pub tail: Tail,
}

/// The type of a number, if there is one.
macro_rules! kind_numbered {
    (
        ($kinds:ident $number:expr)
        $($kind:ident $fields:tt = $name:literal, $way:ident($value:literal, $($length:tt)*) $(.$more:ident $of:tt)?;)*
    ) => {
        match $number {
            $($value => Some($kinds::$kind),)*
            _ => None,
        }
    };
}

/// The name and the row of a type.
macro_rules! entry_of {
    (($kinds:ident $type:expr) $($kind:ident $fields:tt = $name:literal, $row:expr;)*) => {
        match $type {
            $($kinds::$kind => ($name, $row),)*
        }
    };
}

impl PlainKind {
    /// The type of this number.
    #[tactic(auto, unfolding(crate::specs::Table::plain_numbered))]
    pub fn numbered(number: u32) -> Option<PlainKind>
        ensures { result ≡ plain_numbered number }
    {
        plain_types!(kind_numbered!(PlainKind number))
    }

    /// What the protocol says of it.
    pub fn row(self) -> TypeRow
        ensures { result ≡ plain_row self }
    {
        self.entry().1
    }

    /// Its name, in capitals.
    pub fn name(self) -> &'static str
        ensures { result.now ≡ plain_name self }
    {
        self.entry().0
    }

    /// Its row of the table: its name, and what the protocol says of it.
    fn entry(self) -> (&'static str, TypeRow)
        ensures name { result.0.now ≡ plain_name self }
        ensures row { result.1 ≡ plain_row self }
    {
        plain_types!(entry_of!(PlainKind self))
    }
}

impl DataKind {
    /// The type of this number.
    #[tactic(auto, unfolding(crate::specs::Table::data_numbered))]
    pub fn numbered(number: u32) -> Option<DataKind>
        ensures { result ≡ data_numbered number }
    {
        data_types!(kind_numbered!(DataKind number))
    }

    /// What the protocol says of it.
    pub fn row(self) -> TypeRow
        ensures { result ≡ data_row self }
    {
        self.entry().1
    }

    /// Its name, in capitals.
    pub fn name(self) -> &'static str
        ensures { result.now ≡ data_name self }
    {
        self.entry().0
    }

    /// Its row of the table: its name, and what the protocol says of it.
    fn entry(self) -> (&'static str, TypeRow)
        ensures name { result.0.now ≡ data_name self }
        ensures row { result.1 ≡ data_row self }
    {
        data_types!(entry_of!(DataKind self))
    }
}

impl Kind {
    /// The type of this number.
    pub fn numbered(number: u32) -> Option<Kind>
        ensures { result ≡ kind_numbered number }
    {
        if let Some(kind) = PlainKind::numbered(number) {
            return Some(Kind::Plain(kind));
        }
        let kind = DataKind::numbered(number)?;
        Some(Kind::Carrying(kind))
    }

    /// What the protocol says of it.
    pub fn row(self) -> TypeRow
        ensures row { result ≡ row_of self }
        ensures small { IsSmall result }
    {
        match self {
            Kind::Plain(kind) => kind.row(),
            Kind::Carrying(kind) => kind.row(),
        }
    }
}

const fn both_ways(number: u32, fixed: u32, tail: Tail) -> TypeRow
    ensures { result ≡ of_type number None None fixed None tail }
{
    TypeRow {
        number,
        way: None,
        wanted: None,
        fixed,
        more: None,
        tail,
    }
}

const fn to_guest(number: u32, fixed: u32) -> TypeRow
    ensures { result ≡ of_type number (Some Way.ToGuest) None fixed None Tail.Nothing }
{
    TypeRow {
        way: Some(Way::ToGuest),
        ..both_ways(number, fixed, Tail::Nothing)
    }
}

const fn to_host(number: u32, fixed: u32) -> TypeRow
    ensures { result ≡ of_type number (Some Way.ToHost) None fixed None Tail.Nothing }
{
    TypeRow {
        way: Some(Way::ToHost),
        ..both_ways(number, fixed, Tail::Nothing)
    }
}

impl TypeRow {
    /// The same with so many bytes more where this capability is there.
    const fn with(self, capability: Caps, bytes: u32) -> TypeRow
        ensures { result ≡ of_type self.number self.way self.wanted self.fixed (with capability bytes) self.tail }
    {
        let more = Some(More { capability, bytes });
        TypeRow { more, ..self }
    }

    /// The same, sent only with this capability.
    const fn wanting(self, capability: Caps) -> TypeRow
        ensures { result ≡ of_type self.number self.way (Some capability) self.fixed self.more self.tail }
    {
        let wanted = Some(capability);
        TypeRow { wanted, ..self }
    }

    /// Whether such packets go this way.
    pub fn goes(&self, way: Way) -> bool
        ensures { result ≡ goes way self.now }
    {
        match self.way {
            None => true,
            Some(only) => way == only,
        }
    }

    /// Whether such packets are sent with these capabilities.
    pub fn is_agreed(&self, caps: Caps) -> bool
        ensures { result ≡ has_wanted caps self.now }
    {
        match self.wanted {
            None => true,
            Some(wanted) => caps.contains(wanted),
        }
    }

    /// Whether the fields are there that go with a capability.
    pub fn has_more(&self, caps: Caps) -> bool
        ensures { result ≡ has_more caps self.now }
    {
        match self.more {
            None => false,
            Some(more) => caps.contains(more.capability),
        }
    }

    /// Whether so many bytes behind the header are more than the fixed fields have with no capability.
    pub fn is_longer(&self, length: u32) -> bool
        ensures { result ≡ is_longer self.now length }
    {
        length > self.fixed
    }

    /// How many bytes the fixed fields have.
    pub fn fixed(&self, caps: Caps) -> u32
        requires { IsSmall self.now }
        ensures value { result ≡ fixed_length caps self.now }
        ensures small { result < 1000 }
    {
        match self.more {
            Some(more) if caps.contains(more.capability) => self.fixed + more.bytes,
            _ => self.fixed,
        }
    }

    /// Whether so many bytes may follow the header.
    pub fn has_length(&self, caps: Caps, length: u32) -> bool
        requires { IsSmall self.now }
        ensures { result ≡ has_length caps self.now length }
    {
        let fixed = self.fixed(caps);
        match self.tail {
            Tail::Nothing => length == fixed,
            Tail::Words => {
                length >= fixed
                    && length <= fixed + 4 * MAX_HELLO_WORDS
                    && (length - fixed) % 4 == 0
            }
            Tail::Data => length >= fixed,
        }
    }
}

/// Whether this is a type of the protocol that the gateway never agrees to.
pub fn is_left_out(number: u32) -> bool
    ensures { result ≡ is_left_out number }
{
    matches!(number, 18..=20 | 22 | 23 | 25..=27 | 104)
}
