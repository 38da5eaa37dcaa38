//! Bytes read through the nested walk.

ghost use Rattle.std.specs.Prelude.{◌≡◌, ◌*◌, ◌%◌, ◌<◌, IfOk};
ghost use Rattle.sb_nested.specs.Stop.{ept_stop, table_stop, walk_stop, stop_at};
ghost use Rattle.sb_nested.specs.View.{view_byte};
ghost use Rattle.sb_nested.specs.Store.{account_after_byte};

use crate::walk::Walk;
use sb_bus::{BusStop, FaultKind};
use sb_memory::{Access, EptStop, Linear};
use sb_walks::{NestedStop, TableStop, WalkStop};

/// What an instruction meets where the EPT refuses: the missing frame of a table, or a fault.
fn ept_stop(at: Linear, stop: EptStop) -> BusStop
    ensures { result ≡ ept_stop at.0 stop }
{
    match stop {
        EptStop::Missing(frame) => BusStop::Missing(frame),
        EptStop::TooWide
        | EptStop::NotPresent { .. }
        | EptStop::Misconfigured { .. }
        | EptStop::Large { .. }
        | EptStop::Outside { .. }
        | EptStop::Denied { .. } => BusStop::Fault(FaultKind::Memory, at),
    }
}

/// What it meets where an entry of the guest's tables cannot be read.
fn table_stop(at: Linear, stop: TableStop) -> BusStop
    ensures { result ≡ table_stop at.0 stop }
{
    match stop {
        TableStop::Missing(frame) => BusStop::Missing(frame),
        TableStop::Ept(stop) => ept_stop(at, stop),
    }
}

/// What it meets where the guest's walk is refused.
fn walk_stop(at: Linear, stop: WalkStop) -> BusStop
    ensures { result ≡ walk_stop at.0 stop }
{
    match stop {
        WalkStop::NonCanonical => BusStop::Fault(FaultKind::Canon, at),
        WalkStop::Table(stop) => table_stop(at, stop),
        WalkStop::NotPresent { .. } | WalkStop::Large { .. } | WalkStop::Denied { .. } => {
            BusStop::Fault(FaultKind::Memory, at)
        }
    }
}

/// What an instruction meets where the walk of an address is refused.
pub fn stop_at(at: Linear, stop: NestedStop) -> BusStop
    ensures { result ≡ stop_at at.0 stop }
{
    match stop {
        NestedStop::Walk(stop) => walk_stop(at, stop),
        NestedStop::Page(stop) => ept_stop(at, stop),
    }
}

/// The byte at an address.
#[tactic(auto, using(sb_memory::proofs::Accounts::after_reads_append), unfolding(crate::specs::View::view_byte, crate::specs::View::byte_calls, crate::specs::View::walk_place))]
pub fn byte<W: Walk>(walk: &mut W, at: Linear, access: Access) -> Result<u8, BusStop>
    ensures answer { result ≡ view_byte (W.view walk.old) at.0 access }
    ensures same { W.view walk.new ≡ W.view walk.old }
    ensures account { W.account walk.new ≡ account_after_byte W.rule (W.view walk.old) access at.0 (W.account walk.old) }
    ensures kept { W.kept walk.new ≡ W.kept walk.old }
{
    let place = walk.place(at, access)?;
    walk.read_byte(place)
}
