// Laws of events. The functions do nothing: their contracts are the laws.

ghost use Rattle.aml_fields.specs.Laws.{EventIsMade, NoEventWithoutStep};
ghost use Rattle.aml_fields.specs.Limits.{AnswersTellTheLimit, ReadsHaveTheirEvents, WritesHaveTheirEvents};

/// A write, a Notify or a Stall takes one step and adds its one event behind the others; without
/// a step it is not made.
pub fn events_are_made()
    ensures made { EventIsMade }
    ensures not_made { NoEventWithoutStep }
{}

/// A read or a write of a field makes just as many events as `read_count` and `write_count` tell.
/// With a limit below that it makes the first of them, as many as the limit: so an answer is there
/// just where they are within the limit, unless memory was wanted.
pub fn limits_count_events()
    ensures reads { ReadsHaveTheirEvents }
    ensures writes { WritesHaveTheirEvents }
    ensures answers { AnswersTellTheLimit }
{}
