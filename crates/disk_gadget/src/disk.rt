//! The disk.
#![tactic(auto, unfolding(crate::specs::Descriptors::described))]

ghost use Rattle.std.specs.Prelude.{◌≡◌, ◌≤◌, IfOk, OnOk, OnErr, length};
ghost use Rattle.model_device.specs.Inside.{HasSet};
ghost use Rattle.disk_gadget.specs.Descriptors.{disk_set};
ghost use Rattle.disk_gadget.specs.DiskStep.{disk, first_disk};
ghost use Rattle.disk_gadget.specs.Inside.{request_done};

use crate::bulk;
use crate::class_request::ClassRequest;
use crate::medium::{MAX_BLOCKS, Medium};
use crate::stage::{Course, Stage};
use chapter9::{stall, success};
use model_device::{Framework, Gadget, Product, is_done_change};
use redir_wire::{Connect, InterfaceInfo};
use std::alloc::Global;
use std::marker::Model;
use usb_base::{Bytes, EpAddr, EpTable, Memory, Outcome, Setup, Speed, StreamPacket, Transfer};

/// Its interface (USB 2.0, tables 9-12 and 9-13; Bulk-Only Transport, 4).
const INTERFACE: [u8; 23] = [
    0x09, 0x04, 0x00, 0x00, 0x02, 0x08, 0x06, 0x50, 0x00, // mass storage, SCSI, bulk-only
    0x07, 0x05, 0x01, 0x02, 0x00, 0x02, 0x00, // OUT 1: bulk, 512 bytes
    0x07, 0x05, 0x81, 0x02, 0x00, 0x02, 0x00, // IN 1: bulk, 512 bytes
];

const PRODUCT: Product = Product {
    speed: Speed::High,
    number: 4,
    name: b"disk",
    interface: &INTERFACE,
};

/// A high-speed device of mass storage, bulk-only, whose blocks of 512 bytes stand in memory. A change that
/// succeeds leaves the blocks.
#[derive(Drop)]
pub struct Disk {
    framework: Framework,
    course: Course,
    medium: Medium,
}

impl Model for Disk {
    ghost use Rattle.std.specs.Prelude.{length};
    ghost use Rattle.model_device.specs.Inside.{HasSet};
    ghost use Rattle.disk_gadget.specs.Descriptors.{disk_set};
    ghost use Rattle.disk_gadget.specs.DiskStep.{DiskState};
    ghost use Rattle.disk_gadget.specs.Within.{IsWithin};

    ghost Value = { DiskState };

    ghost view = { λ d. record { state = record { device = d.framework.state; kept = d.course }; blocks = d.medium } };

    ghost invariant = { λ d. HasSet disk_set d.framework × IsWithin (length d.medium) d.course.stage };
}

impl Disk {
    /// A disk of so many blocks that was just plugged in. Its bytes are zeros.
    #[tactic(auto, unfolding(usb_base::specs::Number::le_at, crate::specs::Descriptors::described, crate::specs::DiskStep::first_disk))]
    pub fn make(alloc: Global, blocks: u32) -> Result<Disk, Memory>
        requires some { 1 ≤ blocks }
        requires few { blocks ≤ MAX_BLOCKS }
        ensures { IfOk result (λ made. made ≡ first_disk blocks) }
    {
        Ok(Disk {
            framework: Framework::make(alloc, PRODUCT.descriptors(alloc)?)?,
            course: Course::fresh(),
            medium: Medium::zeros(alloc, blocks)?,
        })
    }
}

impl Gadget for Disk {
    ghost use Rattle.disk_gadget.specs.inner.Lawful.{disk_lawful};

    ghost meaning = { disk };

    fn identity(&self) -> Connect {
        self.framework.identity(PRODUCT.speed)
    }

    fn configuration(&self) -> u8 {
        self.framework.state.configuration
    }

    fn interfaces(&self) -> InterfaceInfo {
        self.framework.interfaces()
    }

    fn table(&self) -> EpTable {
        self.framework.table()
    }

    fn perform(&mut self, alloc: Global, transfer: &Transfer) -> Result<Option<Outcome>, Memory> {
        if let Some(setup) = &transfer.setup {
            let outcome = request(
                alloc,
                &mut self.framework,
                &mut self.course,
                transfer,
                setup,
            )?;
            return Ok(Some(outcome));
        }
        if !self.framework.is_running(transfer.ep) {
            return Ok(Some(stall(alloc)));
        }
        if transfer.ep.is_in() {
            bulk::give(alloc, &mut self.course, &self.medium, transfer.wanted)
        } else {
            let device = &mut self.framework.state;
            bulk::take(
                alloc,
                device,
                &mut self.course,
                &mut self.medium,
                &transfer.body,
            )
        }
    }

    fn offer(&mut self, _alloc: Global, _ep: EpAddr) -> Result<Option<StreamPacket>, Memory> {
        Ok(None)
    }

    ghost lawful = { disk_lawful };
}

/// Answers a transfer of endpoint 0.
fn request(
    alloc: Global,
    framework: &mut Framework,
    course: &mut Course,
    transfer: &Transfer,
    setup: &Setup,
) -> Result<Outcome, Memory>
    requires setup { transfer.now.setup ≡ Some setup.now }
    requires set { HasSet disk_set framework.old }
    ensures set { HasSet disk_set framework.new }
    ensures outcome { IfOk result (λ outcome. outcome ≡ (request_done framework.old.state course.old transfer.now setup.now).1) }
    ensures device { OnOk result (framework.new.state ≡ (request_done framework.old.state course.old transfer.now setup.now).0.device) }
    ensures course { OnOk result (course.new ≡ (request_done framework.old.state course.old transfer.now setup.now).0.kept) }
    ensures same_device { OnErr result (framework.new ≡ framework.old) }
    ensures same_course { OnErr result (course.new ≡ course.old) }
{
    match ClassRequest::of(setup) {
        Some(ClassRequest::Reset) => {
            course.stage = Stage::Waits;
            Ok(success(Bytes::new(alloc)))
        }
        Some(ClassRequest::MaxLun) => {
            let mut body = Bytes::new(alloc);
            if transfer.wanted > 0 && setup.length > 0 {
                body.push(0)?;
            }
            Ok(success(body))
        }
        None => {
            let outcome = framework.control(alloc, transfer)?;
            if is_done_change(transfer, &outcome) {
                *course = Course::fresh();
            }
            Ok(outcome)
        }
    }
}
