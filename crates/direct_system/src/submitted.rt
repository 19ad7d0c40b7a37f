//! Which submit had an id.

ghost use Rattle.std.specs.Prelude.{◌≡◌};
ghost use Rattle.direct_run.specs.Noted.{number_in};

use direct_run::Submits;

/// The number of the last submit that had this id, 0 where none had.
pub fn number_in(id: u64, submits: &Submits) -> u32
    ensures { result ≡ number_in id submits.now }
{
    // A request that is under way is among the latest.
    let submits = submits.as_slice();
    match submits.iter().rev().find(|submit| submit.id == id) {
        Some(submit) => submit.seqnum,
        None => 0,
    }
}
