//! Laws of the cuts, as contracts of functions that do nothing.

ghost use Rattle.stream_buffers.specs.Laws.{FewestFill, InterruptFits, IsoFits};

/// An interrupt request takes the fewest packets that fill it.
pub fn fewest_fill()
    ensures { FewestFill }
{}

/// What an interrupt request is given fits its buffer.
pub fn interrupt_fits()
    ensures { InterruptFits }
{}

/// What an isochronous request is given fits its buffer, and is as long as its descriptors tell.
pub fn iso_fits()
    ensures { IsoFits }
{}
