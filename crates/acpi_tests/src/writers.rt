// A listing of routes into a writer that takes a byte at a time, and into one that takes so many
// bytes and then fails.

use acpi_resource_text::list_routes;
use acpi_resources::{GlobalInterrupt, Pin, Polarity, Route, Trigger};
use acpi_samples::Narrow;
use acpi_text::RunFault;
use std::test::Fail;

const ROUTES: &str = "0x1ffff A 20 level low\n0x2ffff B 17 level low\n";

fn route(address: u64, pin: Pin, number: u32) -> Route {
    Route {
        address,
        pin,
        interrupt: GlobalInterrupt {
            number,
            trigger: Trigger::Level,
            polarity: Polarity::Low,
        },
    }
}

#[test]
fn routes(rt: HostRuntime) -> Result<(), Fail> {
    let alloc = rt.alloc();
    let found = [route(0x1FFFF, Pin::A, 20), route(0x2FFFF, Pin::B, 17)];
    let mut slow = Narrow::new(alloc, 1, 128)?;
    assert_eq!(rt; list_routes(alloc, &mut slow, &found), Ok(()));
    assert_eq!(rt; slow.text.as_slice(), ROUTES.as_bytes());
    for room in 0..ROUTES.len() {
        let mut full = Narrow::new(alloc, 7, room)?;
        assert_eq!(rt; list_routes(alloc, &mut full, &found), Err(RunFault::Write));
        assert_eq!(rt; full.text.as_slice(), &ROUTES.as_bytes()[..room]);
    }
    Ok(())
}
