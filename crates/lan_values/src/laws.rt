ghost use Rattle.lan_values.specs.Inverse.{BoolsAreRead, FlatIsRead, VariableIsRead};

/// A law of the definitions: what is put into a buffer of values of any length is what it holds.
pub fn variable_is_read()
    ensures { VariableIsRead }
{}

/// A law of the definitions: what values of one width give, put one after another, is a buffer of them.
pub fn flat_is_read()
    ensures { FlatIsRead }
{}

/// A law of the definitions: the bools that are put into a buffer are those that it holds.
pub fn bools_are_read()
    ensures { BoolsAreRead }
{}
