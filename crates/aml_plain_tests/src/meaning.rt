// What errors are printed as, and each call once.

use aml_meaning::{
    Action, AmlCause, AmlError, Arithmetic, action_of, done_is_stable, reads_are_answered,
    set_bits_are_found,
};
use aml_operators::Op;
use std::test::Fail;

#[test]
fn printed_errors(rt: HostRuntime) -> Result<(), Fail> {
    let causes: &[(AmlCause, &str)] = &[
        (AmlCause::Unset, "7 30 A1 Unset"),
        (AmlCause::Kind, "7 30 A2 Kind"),
        (AmlCause::Divisor, "7 30 A3 Divisor"),
        (AmlCause::Index, "7 30 A4 Index"),
        (AmlCause::Missing, "7 30 A5 Missing"),
        (AmlCause::Outside, "7 30 A6 Outside"),
        (AmlCause::Region, "7 30 A7 Region"),
        (AmlCause::NoValue, "7 30 A8 NoValue"),
        (AmlCause::Depth, "7 30 A9 Depth"),
    ];
    for (cause, text) in causes {
        let error = AmlError {
            table: 7,
            at: 30,
            cause: *cause,
        };
        let printed = format!(in rt.alloc(); "{error}")?;
        assert_eq!(rt; printed.as_str(), *text);
    }
    Ok(())
}

#[test]
fn calls(rt: HostRuntime) {
    let rows: &[(Op, Action)] = &[
        (Op::Add, Action::Binary(Arithmetic::Add)),
        (Op::Arg6, Action::Argument(6)),
        (Op::LNot, Action::LNot),
        (Op::VarPackage, Action::Data(Op::VarPackage)),
        (Op::Revision, Action::Unwritten),
        (Op::Timer, Action::Unwritten),
    ];
    for (op, action) in rows {
        assert_eq!(rt; action_of(*op), *action);
    }
    done_is_stable();
    reads_are_answered();
    set_bits_are_found();
}
