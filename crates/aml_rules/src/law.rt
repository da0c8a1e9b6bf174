// Laws of the rules, over their definitions alone.

ghost use Rattle.aml_rules.specs.Laws.{IsGivenBack};

/// ToInteger gives the integer back that ToBuffer made a buffer of, at both widths.
pub fn integers_are_given_back()
    ensures { IsGivenBack }
{}
