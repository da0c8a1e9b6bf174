// Evaluations over a world that refuses behind so many calls, and over one of ones. Accesses were
// worked out by hand (ACPI 6.5, 5.5.2.4 and 19.6, Field, IndexField).

use crate::methods::{Call, Method, Wanted, are_calls, evaluated, gives, registers};
use crate::rows::{FILLED, INDEXED, PRESERVED, SIXTEEN};
use aml_regions::{AllOnes, Refusing};
use std::test::Fail;

/// A method that gives nothing, and the four calls that it makes.
type Row = (Method, [Call; 4]);

const ROWS: [Row; 2] = [
    (
        PRESERVED,
        [
            Call::Read(0x60, 0x15),
            Call::Written(0x60, 0xb5),
            Call::Read(0x61, 0x27),
            Call::Written(0x61, 0x2a),
        ],
    ),
    (
        INDEXED,
        [
            Call::Written(0x70, 2),
            Call::Read(0x71, 0x5a),
            Call::Written(0x70, 2),
            Call::Written(0x71, 0x3a),
        ],
    ),
];

#[test]
fn refused_calls_leave_the_first_ones(rt: HostRuntime) -> Result<(), Fail> {
    for (method, calls) in ROWS {
        for passes in 0..5 {
            let file = registers(rt.alloc(), method.registers)?;
            let mut world = Refusing::new(file, passes as u64);
            let answer = evaluated(&rt, rt.alloc(), method, &mut world)?;
            assert!(rt;
                are_calls(world.inner().events(), &calls[..passes]),
                "{passes}"
            );
            if passes < 4 {
                assert!(rt; answer.is_err(), "{passes}");
                assert_eq!(rt; world.refusals(), 1);
            } else {
                assert!(rt; answer.is_ok_and(|value| gives(&value, Wanted::Nothing)));
                assert_eq!(rt; world.refusals(), 0);
            }
        }
    }
    Ok(())
}

#[test]
fn nothing_is_asked_of_a_world_without_accesses(rt: HostRuntime) -> Result<(), Fail> {
    let file = registers(rt.alloc(), b"")?;
    let mut world = Refusing::new(file, 0);
    let answer = evaluated(&rt, rt.alloc(), FILLED, &mut world)?;
    assert!(rt; answer.is_ok_and(|value| gives(&value, Wanted::Buf(SIXTEEN))));
    assert_eq!(rt; world.refusals(), 0);
    Ok(())
}

#[test]
fn bits_beside_a_field_stay_ones(rt: HostRuntime) -> Result<(), Fail> {
    let mut world = AllOnes::new(rt.alloc());
    let answer = evaluated(&rt, rt.alloc(), PRESERVED, &mut world)?;
    let calls = [
        Call::Read(0x60, 0xff),
        Call::Written(0x60, 0xbf),
        Call::Read(0x61, 0xff),
        Call::Written(0x61, 0xfa),
    ];
    assert!(rt; answer.is_ok_and(|value| gives(&value, Wanted::Nothing)));
    assert!(rt; are_calls(world.events(), &calls));
    Ok(())
}
