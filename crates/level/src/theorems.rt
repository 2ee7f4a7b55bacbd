//! What the definitions of `specs/` are shown to say. Each function states one theorem by its contract, and does nothing.

ghost use Rattle.level.specs.Theorems.{RepAlike, DefAlike, Adds};

use crate::definition::LevelKind;

/// Decoders of repetition levels whose states mean the same reply the same.
pub fn repetition_alike()
    ensures { RepAlike }
{}

/// Decoders of definition levels of any two kinds reply the same, as one of levels and one of a mask.
pub fn definition_alike<A: LevelKind, B: LevelKind>()
    ensures { DefAlike A B }
{}

/// Taking `n` definition levels and then `m` is taking `n + m`.
pub fn calls_add_up()
    ensures { Adds }
{}
