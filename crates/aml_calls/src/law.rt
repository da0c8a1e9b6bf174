// Laws over the definitions alone.

ghost use Rattle.aml_calls.specs.Chains.{ChainsAreCounted};

/// A method is short of so many just where each chain that begins with it has at most so many
/// methods; then none has a cycle, and where one has, chains are as long as one likes.
pub fn chains_are_counted()
    ensures { ChainsAreCounted }
{}
