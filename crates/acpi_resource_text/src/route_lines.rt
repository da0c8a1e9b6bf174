// Where interrupt pins go, as it is printed.

ghost use Rattle.std.specs.Prelude.{◌≡◌, IfOk, string_bytes};
ghost use Rattle.acpi_text.specs.Lists.{Lists};
ghost use Rattle.acpi_resource_text.specs.Lines.{route_line, routes_text};

use crate::words::{pin_text, polarity_text, trigger_text};
use acpi_resources::Route;
use acpi_text::{RunFault, put};
use std::alloc::{AllocError, Global};
use std::io::Write;

/// Prints a line for each route, in their order: `0x1ffff A 20 level low`, the device's address,
/// its pin, the number of the global interrupt, and how it is signalled.
///
/// At Err the writer holds a beginning of that text.
pub fn list_routes<W: Write>(alloc: Global, out: &mut W, routes: &[Route]) -> Result<(), RunFault>
    ensures { Lists result (W.contents out.old) (W.contents out.new) (routes_text routes.now) }
{
    for route in routes {
        list_route(alloc, out, route)?;
    }
    Ok(())
}

// Prints the line of a route.
fn list_route<W: Write>(alloc: Global, out: &mut W, route: &Route) -> Result<(), RunFault>
    ensures { Lists result (W.contents out.old) (W.contents out.new) (route_line route.now) }
{
    let line = line_of(alloc, route)?;
    put(out, line.as_bytes())
}

#[tactic(auto, unfolding(crate::specs::Lines::route_line))]
fn line_of(alloc: Global, route: &Route) -> Result<String, AllocError>
    ensures { IfOk result (λ line. string_bytes line ≡ route_line route.now) }
{
    let address = route.address;
    let pin = pin_text(route.pin);
    let number = route.interrupt.number;
    let trigger = trigger_text(route.interrupt.trigger);
    let polarity = polarity_text(route.interrupt.polarity);
    format!(in alloc; "0x{address:x} {pin} {number} {trigger} {polarity}\n")
}
