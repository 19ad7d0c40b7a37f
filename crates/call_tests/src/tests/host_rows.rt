//! Lives of hosts: in each row a call, what it sends, and what it tells. What is sent was laid out by hand.
//!
//! A call is `g` and bytes of the guest, `b` and such bytes one by one, `p` or `o` and an endpoint, or `x`. What it
//! tells is a word and its number, an id or a place, or nothing. A line behind `#` is a comment.

/// A guest that asks nothing.
pub const ASKS_NOTHING: &str = "
    p 00 | | not ready 0
    o 81 | | closed 0
    g GH | EPU IIU DC10 |
    p 00 | | not ready 0
    p 01 | | not ready 0
    p 81 | | not ready 0
    o 81 | | closed 0
";

/// A guest reads and writes the loop until it is unplugged.
pub const READS_AND_WRITES: &str = "
    g GH | EPU IIU DC10 |
    g SET_CONFIG:1 01 | |
    p 00 | EPL II8 CONFIG_STATUS:1 0001 | done 1
    g OUT4:2 | |
    p 01 | OUT4DONE:2 | done 2
    g CANCEL:2 | |
    p 01 | | not ready 0
    g BULK_HEAD:3 81000200000000000000 | |
    p 81 | GIVEN2:3 a1a2 | done 3
    g BULK_HEAD:4 81000900000000000000 | |
    x | UNPLUGGED | gone 0
    g UNPLUGGEDACK SET_CONFIG:5 00 | |
    p 81 | | unplugged 0
    o 81 | | unplugged 0
    x | | gone before 0
";

/// A guest streams the keyboard.
pub const STREAMS: &str = "
    g GH | EPU IIU DCK |
    o 81 | | closed 0
    g START_INTERRUPT:9 81 | INTERRUPT_STATUS:9 0281 |
    g SET_CONFIG:1 01 | |
    p 80 | EPK II8 CONFIG_STATUS:1 0001 | done 1
    g START_INTERRUPT:2 81 | INTERRUPT_STATUS:2 0081 |
    o 81 | REPORT KEYA | sent 0
    o 81 | REPORT KEYB | sent 0
    # starts that can't be, of an endpoint that isn't there, of OUT, of another type, and of no address
    g START_INTERRUPT:3 82 | INTERRUPT_STATUS:3 0282 |
    g START_INTERRUPT:3 01 | INTERRUPT_STATUS:3 0201 |
    g START_ISO:3 810101 | ISO_STATUS:3 0281 |
    g START_INTERRUPT:3 91 | INTERRUPT_STATUS:3 0291 |
    o 81 | REPORT KEYC | sent 0
    # a stop of either type ends it, and a second one succeeds
    g STOP_ISO:4 81 | ISO_STATUS:4 0081 |
    o 81 | | closed 0
    g STOP_INTERRUPT:5 81 | INTERRUPT_STATUS:5 0081 |
";

/// A change ends the streams that it touches.
pub const CHANGES: &str = "
    g GH | EPU IIU DCT |
    g SET_CONFIG:1 01 | |
    p 00 | EPU II8 CONFIG_STATUS:1 0001 | done 1
    g SET_ALT:2 0001 | |
    p 00 | EPT II8 ALT_STATUS:2 000001 | done 2
    g START_ISO:3 810101 | ISO_STATUS:3 0081 |
    o 81 | ISO192 00*192 | sent 0
    o 81 | ISO192 01*192 | sent 0
    # a change that the device refuses ends none
    g SET_ALT:4 0007 | |
    p 00 | EPT II8 ALT_STATUS:4 040007 | done 4
    o 81 | ISO192 02*192 | sent 0
    g GET_ALT:5 00 | |
    p 00 | ALT_STATUS:5 000001 | done 5
    g SET_ALT:6 0000 | |
    p 00 | EPU II8 ALT_STATUS:6 000000 | done 6
    o 81 | | closed 0
";

/// A change flushes by the table before it.
pub const FLUSHES: &str = "
    g GH | EPU IIU DC10 |
    g SET_CONFIG:1 01 | |
    p 00 | EPL II8 CONFIG_STATUS:1 0001 | done 1
    g BULK_HEAD:3 81000200000000000000 CONTROL_HEAD:4 8006800000010000 1200 | |
    g SET_CONFIG:6 00 BULK_HEAD:7 8200020000000000 0000 | |
    # endpoint 0 keeps its order, and what waits there is never flushed
    p 00 | 64000000 1c000000 ID:4 8006800000010000 1200 DEVICE | done 4
    p 80 | INCANCELLED:3 BULK_HEAD:7 8201 00*8 EPU IIU CONFIG_STATUS:6 0000 | done 6
    p 81 | | not ready 0
    g SET_CONFIG:8 05 | |
    p 00 | EPU IIU CONFIG_STATUS:8 0400 | done 8
    g GETCONFIG:9 | |
    p 00 | CONFIG_STATUS:9 0000 | done 9
";

/// A reset marks the next request of endpoint 0.
pub const RESETS: &str = "
    g GH | EPU IIU DC10 |
    g SET_CONFIG:1 01 | |
    p 00 | EPL II8 CONFIG_STATUS:1 0001 | done 1
    # two resets before it are one mark; another endpoint takes none
    g PORTRESET:2 BULK_HEAD:3 8100020000000000 0000 PORTRESET:4 SET_CONFIG:5 01 | |
    p 81 | | not ready 0
    p 00 | INCANCELLED:3 EPU IIU EPL II8 CONFIG_STATUS:5 0001 | done 5
    # a get_configuration is performed by the reset alone
    g PORTRESET:6 GETCONFIG:7 GETCONFIG:8 | |
    p 00 | EPU IIU CONFIG_STATUS:7 0000 | done 7
    p 00 | CONFIG_STATUS:8 0000 | done 8
    p 00 | | not ready 0
";

/// A mark moves when its packet is cancelled.
pub const CANCELS_BEHIND_RESETS: &str = "
    g GH | EPU IIU DC10 |
    g SET_CONFIG:1 01 | |
    p 00 | EPL II8 CONFIG_STATUS:1 0001 | done 1
    # to the packet behind it
    g PORTRESET:2 CONTROL_HEAD:3 8006800000010000 1200 BULK_HEAD:4 8100020000000000 0000 GETCONFIG:5 | |
    g CANCEL:3 | CONTROL_HEAD:3 80068001 00010000 0000 | cancelled 3
    p 00 | INCANCELLED:4 EPU IIU CONFIG_STATUS:5 0000 | done 5
    # or to the next that comes
    g PORTRESET:6 CONTROL_HEAD:7 8006800000010000 1200 CANCEL:7 | CONTROL_HEAD:7 80068001 00010000 0000 | cancelled 7
    g GETCONFIG:8 GETCONFIG:9 | |
    p 00 | EPU IIU CONFIG_STATUS:8 0000 | done 8
    p 00 | CONFIG_STATUS:9 0000 | done 9
";

/// A cancel takes the first packet of its id.
pub const CANCELS: &str = "
    g GH | EPU IIU DC10 |
    g SET_CONFIG:1 01 | |
    p 00 | EPL II8 CONFIG_STATUS:1 0001 | done 1
    g CANCEL:9 | |
    g GETCONFIG:3 BULK_HEAD:3 8100020000000000 0000 BULK_HEAD:3 8200030000000000 0000 | |
    g CANCEL:3 | INCANCELLED:3 | cancelled 3
    g CANCEL:3 CANCEL:3 | BULK_HEAD:3 8201 00*8 | cancelled 3
    p 00 | CONFIG_STATUS:3 0001 | done 3
    g CANCEL:3 | |
";

/// What can't be asked is answered inval.
pub const CANNOT_BE_ASKED: &str = "
    g GH | EPU IIU DC10 |
    g SET_CONFIG:1 01 | |
    p 00 | EPL II8 CONFIG_STATUS:1 0001 | done 1
    # bulk of endpoint 0, of no address, and of more than 16 MiB
    g BULK_HEAD:2 8000020000000000 0000 | BULK_HEAD:2 8002 00*8 |
    g BULK_HEAD:2 9100020000000000 0000 | BULK_HEAD:2 9102 00*8 |
    g BULK_HEAD:2 8100010000000000 0001 | BULK_HEAD:2 8102 00*8 |
    # control of another endpoint, and of the other direction
    g CONTROL_HEAD:3 8106800000010000 1200 | CONTROL_HEAD:3 81068002 00010000 0000 |
    g CONTROL_HEAD:3 8005000000000000 0000 | CONTROL_HEAD:3 80050002 00000000 0000 |
    # interrupt of endpoint 0
    g INTERRUPT_HEAD:4 00000000 | INTERRUPT_HEAD:4 00020000 |
    # of other endpoints nothing is asked by interrupt packets that want data, and by isochronous ones
    g INTERRUPT_HEAD:4 81000800 ISO_HEAD:4 81000800 ISO_HEAD:4 31000000 | |
    # 16 MiB
    g BULK_HEAD:5 8100000000000000 0001 | |
    p 81 | | not ready 0
    g CANCEL:5 | INCANCELLED:5 | cancelled 5
";

/// Bytes behind a wrong place are dropped.
pub const WRONG_TYPE: &str = "
    g GH | EPU IIU DC10 |
    g SET_CONFIG:1 01 | |
    p 00 | EPL II8 CONFIG_STATUS:1 0001 | done 1
    g SET_CONFIG:2 00 1e000000 | | UnknownType 114
    g SET_CONFIG:3 01 | |
    p 00 | EPU IIU CONFIG_STATUS:2 0000 | done 2
    p 00 | | not ready 0
    x | UNPLUGGED | gone 0
";

/// A guest that says no hello first.
pub const NO_HELLO: &str = "
    o 81 | | closed 0
    g 03 | |
    g 000000 | | HelloFirst 0
    g GH | |
    x | | gone 0
";

/// An unplugged host reads on.
pub const UNPLUGGED: &str = "
    g GH | EPU IIU DC10 |
    g SET_CONFIG:1 01 | |
    p 00 | EPL II8 CONFIG_STATUS:1 0001 | done 1
    x | UNPLUGGED | gone 0
    g BULK_HEAD:2 8100020000000000 0000 CANCEL:2 0f | |
    g 00000001000000 ID:3 81 1e000000 | | UnknownType 156
";

/// A guest that announces no capability.
pub const ANNOUNCES_NOTHING: &str = "
    g GH0 | 05000000 60000000 00000000 NOROWS 04000000 84000000 00000000 00*132 DC8 |
    g 06000000 01000000 01000000 01 | |
    p 00 | 05000000 60000000 00000000 LOOPROWS II4 08000000 02000000 01000000 0001 | done 1
    g 65000000 08000000 02000000 8100ffff00000000 | |
    g 15000000 00000000 02000000 | 65000000 08000000 02000000 8101000000000000 | cancelled 2
";

/// A guest whose bytes come one by one.
pub const BYTE_BY_BYTE: &str = "
    b GH BULK_HEAD:2 8000020000000000 0000 BULK_HEAD4:3 1100040000000000 0000 a1a2a3a4 | EPU IIU DC10 BULK_HEAD:2 8002 00*8 BULK_HEAD:3 1102 00*8 |
";
