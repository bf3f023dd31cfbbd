//! What drives the outputs of a module.

ghost use Rattle.std.specs.Prelude.{◌≡◌, ◌≢◌, Err, ℕ, ◌<◌, ◌^◌, ◌++◌, None, Some, slice_get, length, OnOk, IfSome};
ghost use Rattle.netlist.specs.Netlists.{driver_of, IsDriven, IsWaiting, WaitsForWrite};
ghost use Rattle.netlist.specs.Longer.{Extends};
ghost use Rattle.routed_modules.specs.Drivers.{MayDriveEach, HasSameNets, CanDrive, AreDriven, coming_drivers, going_drivers};

use netlist::{Builder, Net, NetFault};
use st_mux::PacketNets;

/// Appends what drives the ports of an end with packets where beats come in.
pub(crate) fn push_coming(
    drivers: &mut Vec<Option<Net>>,
    ready: Net,
    channel: bool,
    empty: bool,
) -> Result<(), NetFault>
    ensures drivers { OnOk result (drivers.new.items ≡ drivers.old.items ++ coming_drivers ready channel empty) }
    ensures full { (result ≡ Err NetFault.TooManyNets) → ⊥ }
{
    drivers.push(Some(ready))?;
    drivers.push(None)?;
    drivers.push(None)?;
    if channel {
        drivers.push(None)?;
    }
    drivers.push(None)?;
    drivers.push(None)?;
    if empty {
        drivers.push(None)?;
    }
    Ok(())
}

/// And where they go out.
pub(crate) fn push_going(
    drivers: &mut Vec<Option<Net>>,
    beat: &PacketNets,
    channel: Option<Net>,
    empty: bool,
) -> Result<(), NetFault>
    ensures drivers { OnOk result (drivers.new.items ≡ drivers.old.items ++ going_drivers beat.now channel empty) }
    ensures full { (result ≡ Err NetFault.TooManyNets) → ⊥ }
{
    drivers.push(None)?;
    drivers.push(Some(beat.valid))?;
    drivers.push(Some(beat.word))?;
    if let Some(channel) = channel {
        drivers.push(Some(channel))?;
    }
    drivers.push(Some(beat.first))?;
    drivers.push(Some(beat.last))?;
    if empty {
        drivers.push(Some(beat.empty))?;
    }
    Ok(())
}

/// Lets a net drive a port, where there is one for it.
fn drive(builder: &mut Builder, port: u32, driver: Option<Net>)
    requires { IfSome driver (λ net. CanDrive builder.old net port) }
    ensures same { HasSameNets builder.old builder.new }
    ensures extends { Extends builder.old builder.new }
    ensures driver { IfSome driver (λ net. driver_of builder.new port ≡ Some net.number) }
    ensures kept { driver ≡ None → driver_of builder.new port ≡ driver_of builder.old port }
    ensures others { (k : ℕ) → k ≢ port → driver_of builder.new k ≡ driver_of builder.old k }
{
    if let Some(net) = driver {
        builder.drive(port, net);
    }
}

/// Lets each net drive its port.
pub(crate) fn drive_each(builder: &mut Builder, drivers: &[Option<Net>])
    requires each { MayDriveEach builder.old builder.old.ports drivers.now }
    requires none { (k : ℕ) → driver_of builder.old k ≡ None }
    requires few { length drivers.now < 2 ^ 32 }
    ensures same { HasSameNets builder.old builder.new }
    ensures extends { Extends builder.old builder.new }
    ensures driven { AreDriven builder.new drivers.now }
    ensures inputs { (k : ℕ) → slice_get drivers.now k ≡ Some None → driver_of builder.new k ≡ None }
    ensures whole { IsDriven builder.new }
{
    for (port, driver) in drivers.iter().enumerate() {
        drive(builder, port as u32, *driver);
    }
}
