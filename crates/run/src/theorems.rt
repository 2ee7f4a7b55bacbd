//! What the definitions of `specs/` are shown to say. Each function states one theorem by its contract, and does nothing.

ghost use Rattle.run.specs.Reading.{Adds};

/// Reading `n` numbers and then `m` is reading `n + m`.
pub fn calls_add_up()
    ensures { Adds }
{}
