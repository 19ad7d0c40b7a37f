//! The packets, and the parts of packets, that the rows of more than one program have.

/// In each line a name and its bytes, which were laid out by hand, in the form that `Packets::add` takes. A line behind
/// `#` is a comment.
pub const SHARED: &str = "
    # A client's list and import of the device, and a submit and an unlink: of a submit the number, the direction, the
    # endpoint, the flags, the length and the packets, of an unlink its number and that of the submit.
    LIST 0111800500000000
    BUSID 312d31 00*29
    IMP 0111800300000000 BUSID
    SUB 00000001 # 00010002 # # # # 00000000 # 00000000
    UNL 00000002 # 00010002 00*8 # 00*24
    # The list of no device; a device's path, bus id and numbers, and one at high speed, vendor fff0, product 0002, up
    # to its version; the head of an import that is given, and that of this device; the answer of a submit: number,
    # status, length, packets and errors; that of an unlink: number and status.
    NONELISTED 011100050000000000000000
    PATH 2f75736272656469722f312d31 00*243
    SEEN PATH BUSID 00000001 00000002
    DEV SEEN 00000003 fff00002
    GIVEN_IMPORT 0111000300000000
    ATTACHED GIVEN_IMPORT DEV
    RET 00000003 # 00*12 # # 00000000 # # 00*8
    RUN 00000004 # 00*12 # 00*24

    # The hellos of the gateway, of a host and of a modelled device's host, which announce the same.
    GATENAME 757362676174652031 00*55
    HOSTNAME 686f7374 00*60
    GH 00000000 44000000 00000000 GATENAME 7a000000
    HHA 00000000 44000000 00000000 HOSTNAME 7a000000
    HG 00000000 44000000 00000000 7573626761746520686f73742031 00*50 7a000000
    # Endpoints 0 to 3 of each direction are control, bulk, interrupt and isochronous.
    KINDS 00020301 ff*12
    SIZES 400000020800c000 00*24
    EP160 05000000 a0000000 00*8 KINDS KINDS 00*64 SIZES SIZES
    # The endpoints of a modelled device without a configuration, of the loop, of the keyboard, and of the tone in its
    # setting 1.
    NOROWS 00 ff*15 00 ff*15 00*64
    LOOPROWS 0002 ff*14 0002 ff*14 00*64
    EPU 05000000 a0000000 00*8 NOROWS 4000 00*30 4000 00*30
    EPL 05000000 a0000000 00*8 LOOPROWS 40000002 00*28 40000002 00*28
    EPK 05000000 a0000000 00*8 00 ff*15 0003 ff*14 00*17 0a 00*46 4000 00*30 40000800 00*28
    EPT 05000000 a0000000 00*8 00 ff*15 0001 ff*14 00*17 01 00*46 4000 00*30 4000c000 00*28
    # No interface, and one of class ff, with ids of eight bytes and of four.
    IIU 04000000 84000000 00*8 00*132
    VENDORROW 01000000 00*32 ff 00*31 00*64
    II8 04000000 84000000 00*8 VENDORROW
    II4 04000000 84000000 00000000 VENDORROW
    # The device at high speed, with ids of eight bytes and of four; the keyboard and the tone.
    DC10 01000000 0a000000 00*8 02000000f0ff02000001
    DC8 01000000 08000000 00000000 02000000f0ff0200
    DCK 01000000 0a000000 00*8 01000000f0ff01000001
    DCT 01000000 0a000000 00*8 01000000f0ff03000001
    # An unplugging, and that a guest has heard of it.
    UNPLUGGED 02000000 00000000 00*8
    UNPLUGGEDACK 18000000 00000000 00*8
    # Packets of a number alone.
    PORTRESET 03000000 00000000 @
    GETCONFIG 07000000 00000000 @
    CANCEL 15000000 00000000 @
    # Heads of packets, whose fields come behind: their names have an underscore.
    SET_CONFIG 06000000 01000000 @
    CONFIG_STATUS 08000000 02000000 @
    SET_ALT 09000000 02000000 @
    GET_ALT 0a000000 01000000 @
    ALT_STATUS 0b000000 03000000 @
    START_ISO 0c000000 03000000 @
    STOP_ISO 0d000000 01000000 @
    ISO_STATUS 0e000000 02000000 @
    START_INTERRUPT 0f000000 01000000 @
    STOP_INTERRUPT 10000000 01000000 @
    INTERRUPT_STATUS 11000000 02000000 @
    CONTROL_HEAD 64000000 0a000000 @
    BULK_HEAD 65000000 0a000000 @
    # With four bytes behind its fields.
    BULK_HEAD4 65000000 0e000000 @
    ISO_HEAD 66000000 04000000 @
    INTERRUPT_HEAD 67000000 04000000 @
    # Bulk transfers of endpoint 81: 13 bytes and 65,536 asked for, 13 and 2 given, and that one was cancelled; of
    # endpoint 01: four bytes, that they were taken, and that one was cancelled.
    ASK BULK_HEAD 81000d00000000000000
    ASK65536 BULK_HEAD 81000000000000000100
    GIVEN13 65000000 17000000 @ 81000d00000000000000
    GIVEN2 65000000 0c000000 @ 81000200000000000000
    INCANCELLED BULK_HEAD 81010000000000000000
    OUT4 BULK_HEAD4 01000400000000000000 a1a2a3a4
    OUT4DONE BULK_HEAD 01000400000000000000
    OUTCANCELLED BULK_HEAD 01010000000000000000
    # Packets of streams, whose bytes come behind: of the tone, of the keyboard, and of endpoint 82; and the keyboard's
    # reports of three keys.
    ISO192 66000000 c4000000 00*8 8100c000
    REPORT 67000000 0c000000 00*8 81000800
    PKT8 67000000 0c000000 00*8 82000800
    KEYA 0000040000000000
    KEYB 0000050000000000
    KEYC 0000060000000000

    # Setups.
    GETDEVICESETUP 8006000100001200
    SETADDRESSSETUP 0005070000000000
    SETCONFIGSETUP 0009010000000000
    GETCONFIGSETUP 8008000000000100
    GETALTSETUP 810a000000000100
    SETALT0SETUP 010b000000000000
    SETALT1SETUP 010b010000000000
    PORTRESETSETUP 2303040001000000
    # It sets no configuration, since its value is 256.
    NOCONFIGSETUP 0009000100000000
";
