//! The statuses of answers that say why: the negatives of Linux error numbers ("usbip_protocol", USBIP_RET_SUBMIT).

ghost use Rattle.std.specs.Prelude.{◌≡◌, negsuc};

/// There is no such endpoint, or it is being changed.
pub const ENOENT: i32 = -2;

/// Too many requests are in flight.
pub const EBUSY: i32 = -16;

/// The request can't be carried out.
pub const EINVAL: i32 = -22;

/// The endpoint is halted.
pub const EPIPE: i32 = -32;

/// The transfer has failed.
pub const EPROTO: i32 = -71;

/// The device sent more than was asked for.
pub const EOVERFLOW: i32 = -75;

/// The request is too long for its packet.
pub const EMSGSIZE: i32 = -90;

/// The request was taken back.
pub const ECONNRESET: i32 = -104;

/// The device is gone.
pub const ESHUTDOWN: i32 = -108;

/// The device didn't answer in time.
pub const ETIMEDOUT: i32 = -110;

/// A short read where that is an error.
pub const EREMOTEIO: i32 = -121;

/// A law: the statuses that definitions name are Linux's numbers; -n is `negsuc (n - 1)`.
pub fn linux_numbers()
    ensures request { (ENOENT ≡ negsuc 1) × (EINVAL ≡ negsuc 21) × (EMSGSIZE ≡ negsuc 89) }
    ensures many { EBUSY ≡ negsuc 15 }
    ensures device { (EPIPE ≡ negsuc 31) × (EPROTO ≡ negsuc 70) × (EOVERFLOW ≡ negsuc 74) × (ETIMEDOUT ≡ negsuc 109) }
    ensures ends { (ECONNRESET ≡ negsuc 103) × (ESHUTDOWN ≡ negsuc 107) }
    ensures short { EREMOTEIO ≡ negsuc 120 }
{}
