// The words for what descriptors and routes say.

ghost use Rattle.std.specs.Prelude.{◌≡◌};
ghost use Rattle.acpi_resource_text.specs.Words.{pin_text, polarity_text, sharing_text, trigger_text, width_text};

use acpi_resources::{AddressWidth, Pin, Polarity, Sharing, Trigger};

#[tactic(auto, unfolding(crate::specs::Words::trigger_text))]
pub(crate) fn trigger_text(trigger: Trigger) -> &'static str
    ensures { result.now ≡ trigger_text trigger }
{
    match trigger {
        Trigger::Edge => "edge",
        Trigger::Level => "level",
    }
}

#[tactic(auto, unfolding(crate::specs::Words::polarity_text))]
pub(crate) fn polarity_text(polarity: Polarity) -> &'static str
    ensures { result.now ≡ polarity_text polarity }
{
    match polarity {
        Polarity::High => "high",
        Polarity::Low => "low",
    }
}

#[tactic(auto, unfolding(crate::specs::Words::sharing_text))]
pub(crate) fn sharing_text(sharing: Sharing) -> &'static str
    ensures { result.now ≡ sharing_text sharing }
{
    match sharing {
        Sharing::Exclusive => "exclusive",
        Sharing::Shared => "shared",
    }
}

#[tactic(auto, unfolding(crate::specs::Words::width_text))]
pub(crate) fn width_text(width: AddressWidth) -> &'static str
    ensures { result.now ≡ width_text width }
{
    match width {
        AddressWidth::Word => "word",
        AddressWidth::Dword => "dword",
        AddressWidth::Qword => "qword",
    }
}

#[tactic(auto, unfolding(crate::specs::Words::pin_text))]
pub(crate) fn pin_text(pin: Pin) -> &'static str
    ensures { result.now ≡ pin_text pin }
{
    match pin {
        Pin::A => "A",
        Pin::B => "B",
        Pin::C => "C",
        Pin::D => "D",
    }
}
