// The numbers and names of the causes of refusals, as they are printed.

ghost use Rattle.std.specs.Prelude.{◌≡◌};
ghost use Rattle.acpi_text.specs.Verdicts as spec;

use aml_causes::Cause;

/// The number and the name of a cause, as `V4 Unset`.
pub fn cause_text(cause: Cause) -> &'static str
    ensures { result.now ≡ spec.cause_text cause }
{
    match cause {
        Cause::Unresolved => "V1 Unresolved",
        Cause::OutsideProfile => "V2 OutsideProfile",
        Cause::WrongKind => "V3 Kind",
        Cause::Unset => "V4 Unset",
        Cause::Cycle => "V5 Cycle",
        Cause::LoopShape => "V6 LoopShape",
        Cause::Index => "V7 Index",
        Cause::Divisor => "V8 Divisor",
        Cause::Region => "V9 Region",
        Cause::NoResult => "V10 NoResult",
        Cause::BoundTooLarge => "V11 BoundTooLarge",
        Cause::CalleeRefused => "V12 CalleeRefused",
        Cause::LocalName => "V13 LocalName",
        Cause::Depth => "V14 Depth",
        Cause::Level => "V15 Level",
        Cause::NotHeld => "V16 NotHeld",
        Cause::StillHeld => "V17 StillHeld",
        Cause::HeldDiffers => "V18 HeldDiffers",
    }
}
