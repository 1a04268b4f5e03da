//! Scripts of traitors.
ghost use Rattle.std.specs.Prelude.{◌≡◌};

use crate::lines::ScriptLine;
use gen_types::GeneralNo;
use std::alloc::AllocError;
use std::marker::Model;

/// A traitor, and the lines of its script in their order, which say what the traitor does. A contract sees
/// the traitor's number and the list of lines.
#[derive(Debug, Drop)]
pub struct Script {
    general: GeneralNo,
    lines: Vec<ScriptLine>,
}

impl Model for Script {
    ghost use Rattle.gen_script.specs.Script.{Script};

    ghost Value = { Script };

    ghost view = { λ s. record { general = s.general; lines = s.lines.items } };
}

impl Script {
    /// Returns the script of this traitor, with these lines.
    pub fn new(general: GeneralNo, lines: Vec<ScriptLine>) -> Script
        ensures general { result.general ≡ general }
        ensures lines { result.lines ≡ lines.items }
    {
        Script { general, lines }
    }

    /// Returns the traitor whose script it is.
    pub fn general(&self) -> GeneralNo
        ensures { result ≡ self.now.general }
    {
        self.general
    }

    /// Returns the lines, in their order.
    pub fn lines(&self) -> &[ScriptLine]
        ensures { result.now ≡ self.now.lines }
    {
        self.lines.as_slice()
    }
}

/// A copy is equal to its original. Copying fails only if memory was refused.
impl Clone for Script {
    ghost is_clone = { λ script copy. copy ≡ script };

    fn clone(&self) -> Result<Script, AllocError> {
        Ok(Script {
            general: self.general,
            lines: self.lines.clone()?,
        })
    }
}
